// The round trip of frames: one theorem over the definitions that the calls' contracts cite.
#![tactic(auto)]

ghost use Rattle.frame_round_trip.specs.RoundTrip.{RoundTrips};

// Whatever the writer accepts is read as the same, and written again identically.
pub fn round_trip()
    ensures { RoundTrips }
{}
