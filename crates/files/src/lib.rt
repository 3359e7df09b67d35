//! Files, read up to a limit.
#![tactic(auto)]

ghost use Rattle.std.specs.Prelude.{◌≡◌, ◌+◌, ◌-◌, ◌^◌, ◌≤◌, min, IfOk, IfSome, take, vec_len};

use std::alloc::Global;
use std::fs::File;
use std::io;
use std::io::Read;
use std::rt::Files;

// The bytes that a reader gives, up to so many. Only of a reader whose bytes are known does the
// library say that `take` keeps the limit, so the limit is set once more, where it changes nothing.
fn read_front<R: Read + Drop>(heap: Global, reader: R, most: usize) -> io::Result<Vec<u8>>
    ensures bound { IfOk result (λ bytes. vec_len bytes ≤ most) }
    ensures front { IfOk result (λ bytes.
        IfSome (R.remaining reader) (λ all. bytes.items ≡ take most all)) }
{
    let mut bytes = Vec::new(heap);
    // `as` loses nothing: a `usize` has 64 bits
    reader.take(most as u64).read_to_end(&mut bytes)?;
    bytes.truncate(most);
    Ok(bytes)
}

// The bytes that a reader gives, up to one more than `most`.
fn read_past<R: Read + Drop>(heap: Global, reader: R, most: usize) -> io::Result<Vec<u8>>
    ensures bound { IfOk result (λ bytes. vec_len bytes ≤ most + 1) }
    ensures front { IfOk result (λ bytes.
        IfSome (R.remaining reader) (λ all. bytes.items ≡ take (min (most + 1) (2 ^ 64 - 1)) all)) }
{
    read_front(heap, reader, most.saturating_add(1))
}

/// The bytes of the file at a path, up to one more than `most`. That one tells that the file is
/// longer, however long it is.
pub fn read_file(rt: &(impl Files + AllocGlobal), path: &str, most: usize) -> io::Result<Vec<u8>>
    ensures { IfOk result (λ bytes. vec_len bytes ≤ most + 1) }
{
    read_past(rt.alloc(), File::open(rt, path)?, most)
}

#[cfg(test)]
mod tests {
    use super::*;
    use std::test::Fail;

    #[test]
    fn a_file_without_end_is_read_one_byte_past_the_limit(rt: HostRuntime) -> Result<(), Fail> {
        assert_eq!(rt; read_file(&rt, "/dev/zero", 32768)?.len(), 32769);
        Ok(())
    }

    #[test]
    fn what_is_absent_or_a_folder_cannot_be_read(rt: HostRuntime) {
        assert!(rt; read_file(&rt, "no-such-file", 32768).is_err());
        assert!(rt; read_file(&rt, "/", 32768).is_err());
    }
}
