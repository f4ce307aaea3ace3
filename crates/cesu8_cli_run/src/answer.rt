//! Computes the whole output of a command from the whole input. Each command has a function here,
//! which calls `simd_cesu8` or `java_text`.

ghost use Rattle.std.specs.Prelude.{◌≡◌, ◌≢◌, ◌⊎◌, [], IsUtf8, IfOk, IfErr, Ok, Err};
ghost use Rattle.std.specs.Str.{chars};
ghost use Rattle.simd_cesu8.specs.Text.{utf8, IsUtf8Of};
ghost use Rattle.simd_cesu8.specs.Reading.{IsStrictReading, IsLenientReading, reading, IsLenientLossyReading};
ghost use Rattle.simd_cesu8.specs.Cow.{answer_bytes, answer_text, IfBytes};
ghost use Rattle.cesu8_cli_run.specs.Command.{flavor_of};
ghost use Rattle.cesu8_cli_run.specs.Faults.{IsRefusal};
ghost use Rattle.cesu8_cli_run.specs.Answer.{IsAnswer, TakesNoMemory, IsUtf8Fault, IsEncodingAnswer, IsNeedsAnswer, IsTextAnswer, IsJavaWriteAnswer, IsJavaReadAnswer};

use crate::command::{Command, FlavorWord};
use crate::fault::RunFault;
use java_text::{read_utf, write_utf};
use simd_cesu8::{CowBytes, CowText, laws, mutf8};
use simdutf8::compat;
use std::alloc::Global;

/// Returns the output of the command, or the error.
#[tactic(auto, unfolding(crate::specs::Answer::IsAnswer))]
pub fn answer(alloc: Global, command: Command, input: &[u8]) -> Result<CowBytes<'_>, RunFault>
    ensures ok { IfBytes result (λ bytes. IsAnswer command input.now (Ok bytes)) }
    ensures err { IfErr result (λ fault.
        (fault ≡ RunFault.Memory) ⊎ IsAnswer command input.now (Err fault)) }
    ensures memory { TakesNoMemory command input.now → result ≢ Err RunFault.Memory }
    ensures empty { input.now ≡ [] → result ≡ Err RunFault.Memory → command ≡ Command.JavaWrite }
    ensures faults { IfErr result (λ fault. (fault ≡ RunFault.Memory) ⊎ IsRefusal fault) }
{
    match command {
        Command::Encode(flavor) => encode(alloc, flavor, input),
        Command::Needs(flavor) => needs(flavor, input),
        Command::Decode(flavor) => decode(alloc, flavor, input),
        Command::DecodeStrict(flavor) => decode_strict(alloc, flavor, input),
        Command::Lossy(flavor) => decode_lossy(alloc, flavor, input),
        Command::LossyStrict(flavor) => decode_lossy_strict(alloc, flavor, input),
        Command::JavaWrite => java_write(alloc, input),
        Command::JavaRead => java_read(alloc, input),
    }
}

fn encode(alloc: Global, flavor: FlavorWord, input: &[u8]) -> Result<CowBytes<'_>, RunFault>
    ensures ok { IfBytes result (λ bytes.
        IsEncodingAnswer (flavor_of flavor) input.now (Ok bytes)) }
    ensures err { IfErr result (λ fault. (fault ≡ RunFault.Memory) ⊎ IsUtf8Fault input.now fault) }
    ensures memory { TakesNoMemory (Command.Encode flavor) input.now
        → result ≢ Err RunFault.Memory }
{
    // For the clause `memory`: a string in which no byte changes needs no encoding, so it is
    // borrowed.
    laws::unchanged();
    let text = input_text(input)?;
    match flavor {
        FlavorWord::Cesu8 => Ok(simd_cesu8::encode(alloc, text)?),
        FlavorWord::Mutf8 => Ok(mutf8::encode(alloc, text)?),
    }
}

/// Returns the line `yes` or the line `no`. Both are constants, so nothing is allocated.
fn needs(flavor: FlavorWord, input: &[u8]) -> Result<CowBytes<'_>, RunFault>
    ensures ok { IfBytes result (λ bytes. IsNeedsAnswer (flavor_of flavor) input.now (Ok bytes)) }
    ensures err { IfErr result (λ fault. IsUtf8Fault input.now fault) }
{
    let text = input_text(input)?;
    let needed = match flavor {
        FlavorWord::Cesu8 => simd_cesu8::needs_encoded(text),
        FlavorWord::Mutf8 => mutf8::needs_encoded(text),
    };
    if needed {
        Ok(CowBytes::Borrowed(b"yes\n"))
    } else {
        Ok(CowBytes::Borrowed(b"no\n"))
    }
}

/// Returns the input as a string, for the commands that take UTF-8.
#[tactic(auto, using(crate::proofs::Encoded::whether_utf8))]
fn input_text(input: &[u8]) -> Result<&str, RunFault>
    ensures ok { IfOk result (λ text. IsUtf8Of (chars text.now) input.now) }
    ensures err { IfErr result (λ fault. IsUtf8Fault input.now fault) }
{
    match compat::from_utf8(input) {
        Ok(text) => Ok(text),
        Err(_) => Err(RunFault::NotUtf8),
    }
}

fn decode(alloc: Global, flavor: FlavorWord, input: &[u8]) -> Result<CowBytes<'_>, RunFault>
    ensures ok { IfBytes result (λ bytes.
        IsTextAnswer (IsLenientReading (flavor_of flavor) input.now) (Ok bytes)) }
    ensures err { IfErr result (λ fault. (fault ≡ RunFault.Memory)
        ⊎ IsTextAnswer (IsLenientReading (flavor_of flavor) input.now) (Err fault)) }
    ensures memory { TakesNoMemory (Command.Decode flavor) input.now
        → result ≢ Err RunFault.Memory }
{
    match flavor {
        FlavorWord::Cesu8 => Ok(into_bytes(simd_cesu8::decode(alloc, input)?)),
        FlavorWord::Mutf8 => Ok(into_bytes(mutf8::decode(alloc, input)?)),
    }
}

fn decode_strict(alloc: Global, flavor: FlavorWord, input: &[u8]) -> Result<CowBytes<'_>, RunFault>
    ensures ok { IfBytes result (λ bytes.
        IsTextAnswer (IsStrictReading (flavor_of flavor) input.now) (Ok bytes)) }
    ensures err { IfErr result (λ fault. (fault ≡ RunFault.Memory)
        ⊎ IsTextAnswer (IsStrictReading (flavor_of flavor) input.now) (Err fault)) }
    ensures memory { TakesNoMemory (Command.DecodeStrict flavor) input.now
        → result ≢ Err RunFault.Memory }
{
    match flavor {
        FlavorWord::Cesu8 => Ok(into_bytes(simd_cesu8::decode_strict(alloc, input)?)),
        FlavorWord::Mutf8 => Ok(into_bytes(mutf8::decode_strict(alloc, input)?)),
    }
}

fn decode_lossy(alloc: Global, flavor: FlavorWord, input: &[u8]) -> Result<CowBytes<'_>, RunFault>
    ensures ok { IfBytes result (λ bytes.
        IsTextAnswer (IsLenientLossyReading (flavor_of flavor) input.now) (Ok bytes)) }
    ensures err { IfErr result (λ fault. fault ≡ RunFault.Memory) }
    ensures memory { TakesNoMemory (Command.Lossy flavor) input.now
        → result ≢ Err RunFault.Memory }
{
    match flavor {
        FlavorWord::Cesu8 => Ok(into_bytes(simd_cesu8::decode_lossy(alloc, input)?)),
        FlavorWord::Mutf8 => Ok(into_bytes(mutf8::decode_lossy(alloc, input)?)),
    }
}

fn decode_lossy_strict(
    alloc: Global,
    flavor: FlavorWord,
    input: &[u8],
) -> Result<CowBytes<'_>, RunFault>
    ensures ok { IfBytes result (λ bytes.
        IsTextAnswer (λ text. text ≡ reading (flavor_of flavor) input.now) (Ok bytes)) }
    ensures err { IfErr result (λ fault. fault ≡ RunFault.Memory) }
    ensures memory { TakesNoMemory (Command.LossyStrict flavor) input.now
        → result ≢ Err RunFault.Memory }
{
    match flavor {
        FlavorWord::Cesu8 => Ok(into_bytes(simd_cesu8::decode_lossy_strict(alloc, input)?)),
        FlavorWord::Mutf8 => Ok(into_bytes(mutf8::decode_lossy_strict(alloc, input)?)),
    }
}

fn java_write(alloc: Global, input: &[u8]) -> Result<CowBytes<'_>, RunFault>
    ensures ok { IfBytes result (λ bytes. IsJavaWriteAnswer input.now (Ok bytes)) }
    ensures err { IfErr result (λ fault.
        (fault ≡ RunFault.Memory) ⊎ IsJavaWriteAnswer input.now (Err fault)) }
    ensures memory { TakesNoMemory Command.JavaWrite input.now → result ≢ Err RunFault.Memory }
{
    let text = input_text(input)?;
    let mut form = Vec::new(alloc);
    write_utf(text, &mut form)?;
    Ok(CowBytes::Owned(form))
}

fn java_read(alloc: Global, input: &[u8]) -> Result<CowBytes<'_>, RunFault>
    ensures ok { IfBytes result (λ bytes. IsJavaReadAnswer input.now (Ok bytes)) }
    ensures err { IfErr result (λ fault.
        (fault ≡ RunFault.Memory) ⊎ IsJavaReadAnswer input.now (Err fault)) }
    ensures memory { TakesNoMemory Command.JavaRead input.now → result ≢ Err RunFault.Memory }
{
    let (text, rest) = read_utf(alloc, input)?;
    if !rest.is_empty() {
        return Err(RunFault::Trailing);
    }
    Ok(into_bytes(text))
}

/// Returns the UTF-8 of decoded text, without a copy.
fn into_bytes(text: CowText<'_>) -> CowBytes<'_>
    ensures { answer_bytes result ≡ utf8 (chars (answer_text text.entry)) }
{
    match text {
        CowText::Borrowed(text) => CowBytes::Borrowed(text.as_bytes()),
        CowText::Owned(text) => CowBytes::Owned(text.into_bytes()),
    }
}
