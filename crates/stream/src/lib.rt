// Cases that follow each other in the input, each after its length in four bytes.
#![tactic(auto)]

ghost use Rattle.std.specs.Prelude.{◌≡◌, ◌≤◌, ◌<◌, length, take, IfOk, OnOk, OnErr, IfSome, MatchOption};
ghost use Rattle.std.specs.Io.KnownBytes.{Consumes, IsAtEnd};
ghost use Rattle.std.specs.Io.{ReadsAtMost};
ghost use Rattle.stream.specs.Lost.{Loses};
ghost use Rattle.std.specs.Fn.{CalledAt};
ghost use Rattle.stream.specs.Case.{GivesSome, IsCase, IsEnd};
ghost use Rattle.stream.specs.Calls.{CallsOnEach};

use std::io;
use std::io::Read;
use wire::{Width, Word};

// Reads to the front of the lent bytes until they are full or the input ends: how many were read. After an error some were.
// `read_exact` and `io::copy` don't fit: they try an interrupted read again, and don't say how many bytes came before the end.
pub fn fill<R: Read>(input: &mut R, bytes: &mut [u8]) -> io::Result<usize>
    ensures count { ReadsAtMost result bytes.new }
    ensures read { IfOk result (λ n. Consumes (R.remaining input.old) (R.remaining input.new) (take n bytes.new)) }
    ensures end { IfOk result (λ n. n < length bytes.new → IsAtEnd (R.remaining input.new)) }
    ensures err { OnErr result (Loses (R.remaining input.old) (R.remaining input.new)) }
{
    let mut done = 0;
    while done < bytes.len() {
        let n = input.read(&mut bytes[done..])?;
        if n == 0 {
            return Ok(done);
        }
        done += n;
    }
    Ok(done)
}

const PIECE: usize = 4096;

// Drops so many bytes, or fewer where the input ends. `io::copy` into a sink says nothing of what an input lost before an error. Where
// there is nothing to drop, no piece is zeroed for it.
fn skip<R: Read>(input: &mut R, count: usize) -> io::Result<()>
    ensures ok { OnOk result (GivesSome (R.remaining input.old) (R.remaining input.new) count) }
    ensures left { Loses (R.remaining input.old) (R.remaining input.new) }
{
    if count == 0 {
        return Ok(());
    }
    let mut piece = [0u8; PIECE];
    let mut left = count;
    while 0 < left {
        let most = left.min(PIECE);
        let n = fill(input, &mut piece[..most])?;
        if n == 0 {
            return Ok(());
        }
        left -= n;
    }
    Ok(())
}

// Reads the next case to the front of the lent bytes, and drops what they have no room for: how many were read, or none where the input
// ends. After an error the input stands somewhere in the case, and the bytes that were read of it are lost.
pub fn read<R: Read>(input: &mut R, file: &mut [u8]) -> io::Result<Option<usize>>
    ensures count { IfOk result (λ case. IfSome case (λ n. n ≤ length file.new)) }
    ensures case { IfOk result (λ case. MatchOption case (IsEnd (R.remaining input.old) (R.remaining input.new))
        (λ n. IsCase (R.remaining input.old) (R.remaining input.new) (length file.new) (take n file.new))) }
    ensures left { Loses (R.remaining input.old) (R.remaining input.new) }
{
    let mut head = [0u8; Width::WORD];
    if fill(input, &mut head)? < Width::WORD {
        return Ok(None);
    }
    let length = u32::read(&head, 0) as usize;
    let most = length.min(file.len());
    let bytes = fill(input, &mut file[..most])?;
    skip(input, length - most)?;
    Ok(Some(bytes))
}

// Reads case after case to the front of the lent bytes and calls the function at each, until the input ends or a call fails.
pub fn each<R: Read, F: FnMut(&[u8]) -> io::Result<()>>(
    input: &mut R,
    file: &mut [u8],
    mut answer: F,
) -> io::Result<()>
    requires { F.IsAlwaysCallable answer }
    ensures calls { OnOk result (CallsOnEach (CalledAt F.FnMut) (length file.old) (R.remaining input.old) (R.remaining input.new) answer) }
    ensures left { Loses (R.remaining input.old) (R.remaining input.new) }
{
    // The input has no end that a proof knows, so the loop has one. Its name is that of its goals.
    'cases: for _ in 0..u64::MAX {
        let Some(bytes) = read(input, file)? else {
            return Ok(());
        };
        answer(&file[..bytes])?;
    }
    Ok(())
}
