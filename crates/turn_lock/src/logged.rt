//! What a value has to show, to be handed out by the lock.
ghost use Rattle.std.specs.Prelude.{◌≡◌, ◌<◌, ◌^◌, List, length};

/// A value that keeps a list of entries, such as the history of what was done to it, and an origin, which is set when it is made.
pub trait Logged {
    /// What the list has.
    type Entry;

    /// What the value began with. Contracts alone see it, so it may be a type of which no value is made.
    type Origin;

    ghost entries: { Self → List Self.Entry };

    ghost origin: { Self → Self.Origin };

    /// The number of its entries, which are fewer than 2^64.
    fn count(&self) -> u64
        requires few { length (entries self.now) < 2 ^ 64 }
        ensures value { result ≡ length (entries self.now) };
}
