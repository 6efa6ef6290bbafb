// What a program is given to read. Each program goes over the lines by a `for` of its own: a function that took what is
// done with a line would be no plainer.
ghost use Rattle.std.specs.Prelude.{◌≡◌, take, IfOk, IfSome};

use std::alloc::Global;
use std::io;
use std::io::Read;

// At most so many bytes are read.
const MOST: u64 = 65536;

// The bytes that a reader gives up to its end, as far as they are read.
pub fn read<R: Read + Drop>(alloc: Global, from: R) -> io::Result<Vec<u8>>
    ensures { IfOk result (λ v. IfSome (R.remaining from) (λ xs. v.items ≡ take 65536 xs)) }
{
    let mut text = Vec::new(alloc);
    from.take(MOST).read_to_end(&mut text)?;
    Ok(text)
}

#[cfg(test)]
mod tests {
    use super::*;
    use std::test::Fail;

    #[test]
    fn reads_all(rt: HostRuntime) -> Result<(), Fail> {
        let text = read(rt.alloc(), b"# a\n# b\n".as_slice())?;
        assert_eq!(rt; text.as_slice(), b"# a\n# b\n".as_slice());
        Ok(())
    }
}
