//! Flags of jobs that are to stop: raised in one thread and polled in another, and polled through the trait.
ghost use Rattle.std.specs.Prelude.{◌≡◌, ◌<◌, replicate, IfOk, IfSome};
ghost use Rattle.cancel_flags.specs.Ends.{IsClaimed, raised_in, new_raising, new_polling};

use crate::compare::compare;
use cancel_flags::{FakeFlag, Flag, Flags, NeverFlag, Raiser, Slot, SlotFlag, Watcher};
use py_base::{List, NoMemory};
use std::alloc::Global;
use std::test::Fail;
use std::thread;
use std::thread::Threads;

// The one watcher of these flags.
fn only(flags: &Flags, watchers: List<Watcher>) -> Option<Watcher>
    requires { watchers ≡ replicate 1 (new_polling flags.now) }
    ensures { IfSome result (λ watcher. watcher.flags ≡ flags.now) }
{
    let mut watchers = watchers;
    watchers.pop()
}

// Flags with one watcher, and the slot of the job 7.
fn flags_of_7(alloc: Global) -> Result<(Flags, Raiser, Watcher, Slot), NoMemory>
    ensures raiser { IfOk result (λ made. (made.1.flags ≡ made.0) × IsClaimed made.1 made.3.number) }
    ensures watcher { IfOk result (λ made. made.2.flags ≡ made.0) }
{
    let (flags, mut raiser, watchers) = Flags::new(alloc, 1)?;
    let Some(watcher) = only(&flags, watchers) else {
        return Err(NoMemory);
    };
    let Some(slot) = raiser.claim(7) else {
        return Err(NoMemory);
    };
    Ok((flags, raiser, watcher, slot))
}

// Raises the flag of the slot.
fn raised(flags: &Flags, raiser: Raiser, slot: Slot) -> Raiser
    requires flags { raiser.flags ≡ flags.now }
    requires claimed { IsClaimed raiser slot.number }
    ensures { result ≡ raised_in slot.number raiser }
{
    let mut raiser = raiser;
    raiser.raise(flags, slot);
    raiser
}

// Polls now and then, whatever it finds.
fn polled(flags: &Flags, watcher: Watcher, slot: Slot) -> Watcher
    requires { watcher.flags ≡ flags.now }
    ensures { result.flags ≡ flags.now }
{
    let mut watcher = watcher;
    for _ in 0..1000 {
        watcher.poll(flags, slot, 7);
    }
    watcher
}

// Another thread raises the flag of the slot, while this one polls.
fn raised_elsewhere<R: Threads>(
    rt: &R,
    flags: &Flags,
    raiser: Raiser,
    watcher: Watcher,
    slot: Slot,
) -> (Raiser, Watcher)
    requires raiser { (raiser.flags ≡ flags.now) × IsClaimed raiser slot.number }
    requires watcher { watcher.flags ≡ flags.now }
    ensures raiser { result.0 ≡ raised_in slot.number raiser }
    ensures watcher { result.1.flags ≡ flags.now }
{
    thread::join(
        rt,
        move ||
            requires { (raiser.flags ≡ flags.now) × IsClaimed raiser slot.number }
            ensures { result ≡ raised_in slot.number raiser }
        { raised(flags, raiser, slot) },
        move ||
            requires { watcher.flags ≡ flags.now }
            ensures { result.flags ≡ flags.entry.now }
        { polled(flags, watcher, slot) },
    )
}

fn two_threads<R: Threads>(rt: &R, alloc: Global) -> Result<String, Fail> {
    let (flags, raiser, watcher, slot) = flags_of_7(alloc)?;
    let mut watcher = watcher;
    let before = watcher.poll(&flags, slot, 7);
    let (mut raiser, mut watcher) = raised_elsewhere(rt, &flags, raiser, watcher, slot);
    let raised = watcher.poll(&flags, slot, 7);
    let other = watcher.poll(&flags, slot, 8);
    raiser.release(&flags, slot);
    let released = watcher.poll(&flags, slot, 7);
    raiser.join(&flags, watcher);
    Ok(format!(in alloc; "{before} {raised} {other} {released}")?)
}

#[test]
fn a_raise_of_another_thread_is_seen_behind_its_join(rt: HostRuntime) -> Result<(), Fail> {
    let shown = two_threads(&rt, rt.alloc())?;
    compare(&rt, "two threads", shown.as_str(), "false true false false");
    Ok(())
}

// What three polls answer, and `;`.
fn show_polls<F: Flag>(flag: &mut F, out: &mut String) -> Result<(), Fail> {
    for _ in 0..3 {
        out.push_str(if flag.poll() { "+" } else { "-" })?;
    }
    out.push_str(";")?;
    Ok(())
}

fn polls_shown(alloc: Global) -> Result<String, Fail> {
    let mut out = String::new(alloc);
    show_polls(&mut NeverFlag, &mut out)?;
    show_polls(&mut FakeFlag::new(0), &mut out)?;
    show_polls(&mut FakeFlag::new(2), &mut out)?;
    let (flags, raiser, mut watcher, slot) = flags_of_7(alloc)?;
    let _raiser = raised(&flags, raiser, slot);
    let mut flag = SlotFlag {
        flags: &flags,
        watcher: &mut watcher,
        slot,
        number: 7,
    };
    show_polls(&mut flag, &mut out)?;
    Ok(out)
}

#[test]
fn flags_answer_by_their_trait(rt: HostRuntime) -> Result<(), Fail> {
    let shown = polls_shown(rt.alloc())?;
    compare(&rt, "three polls", shown.as_str(), "---;+++;--+;+++;");
    Ok(())
}
