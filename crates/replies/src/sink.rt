// What a listing is written to.
ghost use Rattle.std.specs.Prelude.{ℕ, List, Option};
ghost use Rattle.replies.specs.Sinks.{Given};

// Holds the bytes that it was given, or has lost some and says so: a listing may be longer than the memory that there is.
pub trait Sink {
    // The bytes that it holds, and none where it has lost some.
    ghost held: { Self → Option (List ℕ) };

    // Takes bytes, to stand behind those that it holds.
    fn write(&mut self, bytes: &[u8])
        ensures { Given held self.old self.new bytes.now };
}
