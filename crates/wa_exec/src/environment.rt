//! The functions of the host: `env.put`, `env.get` and `env.stop`.

ghost use Rattle.std.specs.Prelude.{◌≡◌, ◌≤◌, ◌%◌, ◌^◌, ℕ, List, [], ◌∷◌, ◌++◌, IfErr, IfOk, OnOk, OnErr, IsErrOf, vec_len};
ghost use Rattle.wa_exec.specs.HostStreams.{Flushes, HasFlushed, HasNotGot, Takes};
ghost use Rattle.wa_exec.specs.HostCalls.{HasCalled};
ghost use Rattle.wa_exec.specs.Interaction.{sides};
ghost use Rattle.host_io.specs.Output.{Grew};
ghost use Rattle.wa_exec.specs.Describes.{Describes, faults_of};

use crate::calls::CallStack;
use crate::halt::Halt;
use crate::host::Host;
use crate::link::HostCall;
use host_io::{Outage, Sink, Source, Take};
use wa_instr::low;

/// Flushes the output.
fn flush_host<O: Sink>(host: &mut Host, out: &mut O) -> Result<(), Halt>
    ensures ok { OnOk result (Flushes (O.output out.old) (O.output out.new) host.old host.new) }
    ensures hands { HasFlushed result (O.output out.old) (O.output out.new) host.old host.new }
    ensures none { OnOk result (host.new ≡ []) }
    ensures reports { IfErr result (λ h. (i steps fuel : ℕ)
        → Describes h (faults_of i (O.faults out.old)) (faults_of i (O.faults out.new)) steps fuel) }
    ensures count { O.faults out.old ≤ O.faults out.new }
    ensures output { Grew (O.output out.old) (O.output out.new) }
{
    match host.flush(out) {
        Ok(()) => Ok(()),
        Err(Outage::Failed) => Err(Halt::OutFault),
        Err(Outage::NoMemory) => Err(Halt::NoMemory),
    }
}

/// Whether the output is flushed after this byte: where 4,096 bytes are buffered, and after each line for a sink that wants lines.
fn is_due<O: Sink>(byte: u8, host: &Host, out: &O) -> bool {
    host.is_full() || (byte == b'\n' && out.wants_lines())
}

/// `env.put`: buffers the low 8 bits of the argument, and flushes the output where it is due.
fn put<O: Sink>(word: u64, host: &mut Host, out: &mut O) -> Result<(), Halt>
    ensures ok { OnOk result (Flushes (O.output out.old) (O.output out.new) (host.old ++ word % 2 ^ 8 ∷ []) host.new) }
    ensures hands { HasFlushed result (O.output out.old) (O.output out.new) (host.old ++ word % 2 ^ 8 ∷ []) host.new }
    ensures reports { IfErr result (λ h. (i steps fuel : ℕ)
        → Describes h (faults_of i (O.faults out.old)) (faults_of i (O.faults out.new)) steps fuel) }
    ensures count { O.faults out.old ≤ O.faults out.new }
    ensures output { Grew (O.output out.old) (O.output out.new) }
{
    let byte = (word % (1 << 8)) as u8;
    if host.hold(byte).is_err() {
        return Err(Halt::NoMemory);
    }
    if is_due(byte, host, out) {
        flush_host(host, out)
    } else {
        Ok(())
    }
}

/// `env.get`: the next byte of the input, or -1 at its end. The output is flushed first.
fn get<I: Source, O: Sink>(host: &mut Host, input: &mut I, out: &mut O) -> Result<u64, Halt>
    ensures ok { IfOk result (λ word. Takes (sides (I.input input.old) (I.ended input.old) (O.output out.old))
        (sides (I.input input.new) (I.ended input.new) (O.output out.new)) word
        × Flushes (O.output out.old) (O.output out.new) host.old host.new) }
    ensures fails { IfErr result (λ h. HasNotGot h (sides (I.input input.old) (I.ended input.old) (O.output out.old))
        (sides (I.input input.new) (I.ended input.new) (O.output out.new)) host.old host.new) }
    ensures reports { IfErr result (λ h. (steps fuel : ℕ)
        → Describes h (faults_of (I.faults input.old) (O.faults out.old)) (faults_of (I.faults input.new) (O.faults out.new)) steps fuel) }
    ensures source { I.faults input.old ≤ I.faults input.new }
    ensures sink { O.faults out.old ≤ O.faults out.new }
    ensures output { Grew (O.output out.old) (O.output out.new) }
{
    flush_host(host, out)?;
    match input.take() {
        Take::Byte(byte) => Ok(u64::from(byte)),
        Take::End => Ok(u64::from(u32::MAX)),
        Take::Failed => Err(Halt::InFault),
    }
}

/// Calls a function of the host, whose arguments are the top operands. Gives the halt, if it halts the run.
pub(crate) fn call_host<I: Source, O: Sink>(
    call: HostCall,
    calls: &mut CallStack,
    host: &mut Host,
    input: &mut I,
    out: &mut O,
) -> Result<(), Halt>
    ensures reports { IfErr result (λ h. (steps fuel : ℕ)
        → Describes h (faults_of (I.faults input.old) (O.faults out.old)) (faults_of (I.faults input.new) (O.faults out.new)) steps fuel) }
    ensures source { I.faults input.old ≤ I.faults input.new }
    ensures sink { O.faults out.old ≤ O.faults out.new }
    ensures output { Grew (O.output out.old) (O.output out.new) }
    ensures calls { vec_len calls.new.callers ≡ vec_len calls.old.callers }
    ensures does { HasCalled calls.old calls.new (sides (I.input input.old) (I.ended input.old) (O.output out.old))
        (sides (I.input input.new) (I.ended input.new) (O.output out.new)) host.old host.new call result }
{
    match call {
        HostCall::Put => {
            let word = calls.take();
            put(word, host, out)
        }
        HostCall::Get => {
            let word = get(host, input, out)?;
            calls.give(word);
            Ok(())
        }
        HostCall::Stop => {
            let site = low(calls.take());
            let code = low(calls.take());
            Err(Halt::Stopped { code, site })
        }
    }
}
