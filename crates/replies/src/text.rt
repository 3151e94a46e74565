// A text that grows in memory.
ghost use Rattle.std.specs.Prelude.{◌≡◌, [], Some, alloc_error, is_some, ok_or};
ghost use Rattle.std.specs.Result.{result_ok};
ghost use Rattle.replies.specs.Sinks.{Given};
ghost use Rattle.replies.specs.Texts.{held_of, kept_of, Grows, Keeps};

use crate::sink::Sink;
use std::alloc::{AllocError, Global};
use std::mem::replace;

// All the bytes that it was given; or, once some found no memory, those that it kept.
#[derive(Debug, Drop)]
pub struct Text {
    bytes: Result<Vec<u8>, Vec<u8>>,
}

impl Text {
    // An empty text.
    pub fn new(heap: Global) -> Text
        ensures { held_of result ≡ Some [] }
    {
        Text {
            bytes: Ok(Vec::new(heap)),
        }
    }

    // Whether no bytes were lost.
    pub fn is_whole(&self) -> bool
        ensures { result ≡ is_some (held_of self.now) }
    {
        self.bytes.is_ok()
    }

    // The bytes, also of a text that has lost some.
    pub fn as_slice(&self) -> &[u8]
        ensures { result.now ≡ kept_of self.now }
    {
        match &self.bytes {
            Ok(kept) | Err(kept) => kept.as_slice(),
        }
    }

    // The bytes, or that some found no memory.
    pub fn into_bytes(self) -> Result<Vec<u8>, AllocError>
        ensures { result ≡ ok_or (result_ok self.bytes) alloc_error }
    {
        self.bytes.ok().ok_or(AllocError)
    }
}

impl Sink for Text {
    ghost held = { held_of };

    fn write(&mut self, bytes: &[u8])
        ensures given { Given held_of self.old self.new bytes.now }
        ensures kept { Keeps self.old self.new bytes.now }
        ensures grows { Grows self.old self.new bytes.now }
    {
        match &mut self.bytes {
            Ok(held) => {
                if held.extend_from_slice(bytes).is_err() {
                    let empty = Vec::new(*held.allocator());
                    self.bytes = Err(replace(held, empty));
                }
            }
            // It takes what there is room for, and has lost some all the same.
            Err(kept) => {
                let _ = kept.extend_from_slice(bytes);
            }
        }
    }
}
