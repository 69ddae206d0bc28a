// A log as bytes: for each write its place, its count and its bytes, for each sync a mark.
ghost use Rattle.std.specs.Prelude.{◌≡◌, ◌+◌, ◌-◌, ◌^◌, ◌≤◌, ◌++◌, length, map, min, take};
ghost use Rattle.loop_disk.specs.Crashing.{call_of};
ghost use Rattle.loop_disk.specs.Medium.{with_bytes_at};
ghost use Rattle.lapyrei.specs.Bytes.{call_bytes, log_bytes, log_entry};

use loop_disk::DeviceCall;
use loop_record::put_u64;
use std::alloc::Allocator;

// The bytes of an entry's head: a place and a count.
const HEAD: usize = 16;

// Puts bytes in their place.
fn put_bytes(out: &mut [u8], at: usize, bytes: &[u8])
    requires { at + length bytes.now ≤ length out.old }
    ensures { out.new ≡ with_bytes_at at bytes.now out.old }
{
    out[at..at + bytes.len()].copy_from_slice(bytes);
}

// Puts an entry at a place of the log, and returns where it ends.
fn put_entry(log: &mut [u8], from: usize, at: u64, bytes: &[u8]) -> usize
    requires { from + length (log_entry at bytes.now) ≤ length log.old }
    ensures end { result ≡ from + length (log_entry at bytes.now) }
    ensures entry { take result log.new ≡ take from log.old ++ log_entry at bytes.now }
    ensures size { length log.new ≡ length log.old }
{
    let begin = from + HEAD;
    let end = begin + bytes.len();
    put_u64(log, from, at);
    put_u64(log, from + 8, bytes.len() as u64);
    put_bytes(log, begin, bytes);
    end
}

// Puts a call at a place of the log, and returns where it ends.
fn put_call<A: Allocator>(log: &mut [u8], from: usize, call: &DeviceCall<Vec<u8, A>>) -> usize
    requires { from + length (call_bytes (call_of (λ v. v.items) call.now)) ≤ length log.old }
    ensures end { result ≡ from + length (call_bytes (call_of (λ v. v.items) call.now)) }
    ensures entry { take result log.new ≡ take from log.old ++ call_bytes (call_of (λ v. v.items) call.now) }
    ensures size { length log.new ≡ length log.old }
{
    match call {
        DeviceCall::Read => from,
        DeviceCall::Write(at, bytes) => put_entry(log, from, *at, bytes),
        DeviceCall::Sync => put_entry(log, from, u64::MAX, &[]),
    }
}

/// Puts calls into a log, the oldest first, and returns how many bytes they take.
pub(crate) fn put_calls<A: Allocator>(log: &mut [u8], calls: &[DeviceCall<Vec<u8, A>>]) -> usize
    requires { length (log_bytes (map (call_of (λ v. v.items)) calls.now)) ≤ length log.old }
    ensures end { result ≡ length (log_bytes (map (call_of (λ v. v.items)) calls.now)) }
    ensures entries { take result log.new ≡ log_bytes (map (call_of (λ v. v.items)) calls.now) }
{
    let mut end = 0;
    for call in calls {
        end = put_call(log, end, call);
    }
    end
}

// How many bytes a call takes in a log; it stops at the greatest u64.
fn call_length<A: Allocator>(call: &DeviceCall<Vec<u8, A>>) -> u64
    ensures { result ≡ min (length (call_bytes (call_of (λ v. v.items) call.now))) (2 ^ 64 - 1) }
{
    match call {
        DeviceCall::Read => 0,
        DeviceCall::Write(_, bytes) => (bytes.len() as u64).saturating_add(HEAD as u64),
        DeviceCall::Sync => HEAD as u64,
    }
}

/// How many bytes calls take in a log; it stops at the greatest u64.
pub(crate) fn log_length<A: Allocator>(calls: &[DeviceCall<Vec<u8, A>>]) -> u64
    ensures { result ≡ min (length (log_bytes (map (call_of (λ v. v.items)) calls.now))) (2 ^ 64 - 1) }
{
    let mut total = 0u64;
    for call in calls {
        total = total.saturating_add(call_length(call));
    }
    total
}
