//! One run of the program, with any reader and any writer.

ghost use Rattle.std.specs.Prelude.{◌≡◌, ◌≢◌, ◌++◌, ◌⊎◌, ◌↔◌, ℕ, List, [], OnOk, OnErr, IfOk, IfErr, IfSome, Some, Err};
ghost use Rattle.std.specs.Io.KnownBytes.{Appends, Consumes, IsAtEnd};
ghost use Rattle.cesu8_cli_run.specs.Faults.{IsRefusal};
ghost use Rattle.cesu8_cli_run.specs.declared.command.Command.TheVariants.{JavaWrite};
ghost use Rattle.cesu8_cli_run.specs.Command.{AreWordsOf, AreNoCommand};
ghost use Rattle.cesu8_cli_run.specs.Answer.{IsAnswerTo, AppendsAnswer, AppendsBeginning};

use crate::answer::answer;
use crate::command::parse;
use crate::fault::RunFault;
use std::alloc::Global;
use std::io::{Read, Write};

/// The largest number of bytes of one read.
const CHUNK: usize = 16384;

/// Reads the whole input, makes the whole output, and then writes it and flushes once.
pub fn run<R: Read, W: Write>(
    alloc: Global,
    words: &[&str],
    input: &mut R,
    output: &mut W,
) -> Result<(), RunFault>
    // The output is that of the bytes that were read, which are the whole input.
    ensures ok { OnOk result (AppendsAnswer words.now (R.remaining input.old)
        (W.contents output.old) (W.contents output.new)) }
    ensures end { OnOk result (IsAtEnd (R.remaining input.new)) }

    // On the empty input only writing a Java string can run out of memory: of all outputs, only its
    // two bytes for the length are not empty.
    ensures empty { R.remaining input.old ≡ Some [] → result ≡ Err RunFault.Memory
        → AreWordsOf JavaWrite words.now }

    // The words are tested before anything is read.
    ensures usage { (result ≡ Err RunFault.Usage) ↔ AreNoCommand words.now }
    ensures unread { result ≡ Err RunFault.Usage → input.new ≡ input.old }

    // If the input is rejected (`IsRefusal`), that is the right result for the whole input.
    ensures refused { IfErr result (λ fault. IsRefusal fault → IfSome (R.remaining input.old)
        (λ bytes. IsAnswerTo words.now bytes (Err fault))) }
    ensures refused_end { IfErr result (λ fault.
        IsRefusal fault → IsAtEnd (R.remaining input.new)) }

    // Nothing is written before the whole output is made.
    ensures unwritten { IfErr result (λ fault. fault ≢ RunFault.Io → output.new ≡ output.old) }
    ensures io { result ≡ Err RunFault.Io → (output.new ≡ output.old)
        ⊎ (IsAtEnd (R.remaining input.new) × AppendsBeginning words.now (R.remaining input.old)
        (W.contents output.old) (W.contents output.new)) }
{
    let Some(command) = parse(words) else {
        return Err(RunFault::Usage);
    };
    let bytes = read_whole(alloc, input)?;
    let answer = answer(alloc, command, bytes.as_slice())?;
    write_whole(answer.as_bytes(), output)
}

/// Returns the bytes of a reader, up to its end.
fn read_whole<R: Read>(alloc: Global, input: &mut R) -> Result<Vec<u8>, RunFault>
    ensures bytes { IfOk result (λ bytes.
        Consumes (R.remaining input.old) (R.remaining input.new) bytes.items) }
    ensures end { OnOk result (IsAtEnd (R.remaining input.new)) }
    ensures err { IfErr result (λ fault. (fault ≡ RunFault.Memory) ⊎ (fault ≡ RunFault.Io)) }
    ensures empty { R.remaining input.old ≡ Some [] → result ≢ Err RunFault.Memory }
{
    let mut bytes = Vec::new(alloc);
    let mut chunk = [0; CHUNK];
    loop {
        let Ok(count) = input.read(&mut chunk) else {
            return Err(RunFault::Io);
        };
        if count == 0 {
            return Ok(bytes);
        }
        // `extend_from_slice` requires that the new length fits half of `usize`, the most that a
        // vector can have. So this counts as a failed allocation.
        if count > usize::MAX / 2 - bytes.len() {
            return Err(RunFault::Memory);
        }
        bytes.extend_from_slice(&chunk[..count])?;
    }
}

/// Writes all of the bytes, and flushes once.
fn write_whole<W: Write>(bytes: &[u8], output: &mut W) -> Result<(), RunFault>
    ensures ok { OnOk result (Appends (W.contents output.old) (W.contents output.new) bytes.now) }
    ensures err { OnErr result ((written : List ℕ) × (rest : List ℕ) × (bytes.now ≡ written ++ rest)
        × Appends (W.contents output.old) (W.contents output.new) written) }
    ensures fault { IfErr result (λ fault. fault ≡ RunFault.Io) }
{
    let mut rest = bytes;
    while !rest.is_empty() {
        let Ok(count) = output.write(rest) else {
            return Err(RunFault::Io);
        };
        if count == 0 {
            return Err(RunFault::Io);
        }
        rest = &rest[count..];
    }
    match output.flush() {
        Ok(()) => Ok(()),
        Err(_) => Err(RunFault::Io),
    }
}
