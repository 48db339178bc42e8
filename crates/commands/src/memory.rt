//! The memory limit of the program: the machine's memory, or less if a control group has a limit.
ghost use Rattle.std.specs.Prelude.{◌≡◌, ◌↔◌, ◌⊎◌, ◌≤◌, Some, IfSome, IsNone};

use std::fs;
use std::fs::Files;
use std::path::Path;

/// The program's memory limit in bytes: the least of the machine's memory and the limits of its control group and of those
/// above it. A value that can't be read is no limit.
pub(crate) fn memory_bound<R: Files + AllocGlobal>(rt: &R) -> Option<u64> {
    least(machine_memory(rt), group_bound(rt))
}

/// The program's peak memory so far, in bytes. 0 if that can't be read.
pub(crate) fn memory_taken<R: Files + AllocGlobal>(rt: &R) -> u64 {
    read_amount(rt, "/proc/self/status", "VmHWM:").unwrap_or(0)
}

// The memory of the machine, in bytes.
fn machine_memory<R: Files + AllocGlobal>(rt: &R) -> Option<u64> {
    read_amount(rt, "/proc/meminfo", "MemTotal:")
}

// The amount of this name in a system file, in bytes.
fn read_amount<R: Files + AllocGlobal>(rt: &R, file: &str, name: &str) -> Option<u64> {
    let text = fs::read_to_string(rt, file).ok()?;
    amount_of(text.as_str(), name)
}

// The least limit of the program's control group and of those above it, in bytes.
fn group_bound<R: Files + AllocGlobal>(rt: &R) -> Option<u64> {
    let text = fs::read_to_string(rt, "/proc/self/cgroup").ok()?;
    let mut bound = None;
    for group in Path::new(group_of(text.as_str())?).ancestors() {
        bound = least(bound, bound_of(rt, group.as_os_str()));
    }
    bound
}

// The limit of one control group, in bytes.
fn bound_of<R: Files + AllocGlobal>(rt: &R, group: &str) -> Option<u64> {
    let name = format!(in rt.alloc(); "/sys/fs/cgroup{}/memory.max", group).ok()?;
    let text = fs::read_to_string(rt, name.as_str()).ok()?;
    read_bound(text.as_str())
}

// The amount of this name in a text like `/proc/meminfo`, in bytes. A line is `MemTotal: 2097152 kB`, in units of 1024 bytes.
fn amount_of(text: &str, name: &str) -> Option<u64> {
    let amount = text.lines().find_map(|line| line.strip_prefix(name))?;
    let units = amount.strip_suffix("kB")?.trim().parse::<u64>().ok()?;
    Some(units.saturating_mul(1024))
}

// The control group in a text like `/proc/self/cgroup`: the path after `0::`.
fn group_of(text: &str) -> Option<&str> {
    text.lines().find_map(|line| line.strip_prefix("0::"))
}

// The limit in a text like a control group's `memory.max`: a number of bytes, or `max` for no limit.
fn read_bound(text: &str) -> Option<u64> {
    text.trim_end().parse::<u64>().ok()
}

// The lesser of two limits. `None` is no limit.
fn least(one: Option<u64>, other: Option<u64>) -> Option<u64>
    ensures none { IsNone result ↔ (IsNone one × IsNone other) }
    ensures bounded { IfSome result (λ r. IfSome one (λ b. r ≤ b) × IfSome other (λ b. r ≤ b)) }
    ensures met { IfSome result (λ r. (one ≡ Some r) ⊎ (other ≡ Some r)) }
{
    match (one, other) {
        (Some(one), Some(other)) => Some(one.min(other)),
        (one, None) => one,
        (None, other) => other,
    }
}
