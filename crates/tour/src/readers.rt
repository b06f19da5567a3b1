//! Those who read the configuration, each on a processor of its own.
ghost use Rattle.std.specs.Prelude.{◌≡◌, IfOk};
ghost use Rattle.srcu.specs.Words.{HasCell, IsCellIn, IsCellOf, IsOpenHere, IsSameCpu, StaysOpen};

use crate::config::{Archive, Config, LOOKS, Old, Sign};
use anyhow::Result;
use srcu::{Cpu, HeldPin, Section, Values, Worker};
use std::fmt;
use std::thread::sleep;
use std::time::{Clock, Duration};

/// How long a reader sleeps in its section, in milliseconds, once its version is replaced.
const NAP: u64 = 50;

/// Reads the configuration in a section.
pub fn read_once(cpu: &mut Cpu<Old>, configs: &Values<Config>) -> Result<Config>
    requires { IsCellIn cpu.old.cpu.domain configs.now }
    ensures { IsSameCpu cpu.old.cpu cpu.new.cpu }
{
    let mut section = Section::new(cpu)?; // srcu_read_lock: it ends where its block does
    Ok(section.get(configs)) // finds the version and loads it
}

/// Reads in sections of its own until another configuration is there than this one, or it has looked often enough.
fn wait_for_another<R: Clock>(
    rt: &R,
    cpu: &mut Cpu<Old>,
    configs: &Values<Config>,
    this: Config,
) -> Result<Config>
    requires { IsCellIn cpu.old.cpu.domain configs.now }
    ensures { IsSameCpu cpu.old.cpu cpu.new.cpu }
{
    let mut seen = this;
    for _ in 0..LOOKS {
        seen = read_once(cpu, configs)?;
        if seen != this {
            break;
        }
        sleep(rt, Duration::from_millis(1));
    }
    Ok(seen)
}

/// What a reader found in a section in which it slept.
#[derive(Drop)]
pub struct Slept {
    /// What its version held before its sleep.
    pub before: Config,
    /// What its version held behind it.
    pub behind: Config,
    /// What another section read meanwhile.
    pub another: Config,
    /// How many old versions were filed when the section was still open.
    pub filed: u64,
}

impl fmt::Display for Slept {
    fn fmt<W: fmt::Write>(&self, f: &mut fmt::Formatter<W>) -> fmt::Result {
        let Slept {
            before,
            behind,
            another,
            filed,
        } = self;
        let (replaced, same) = (another != before, before.is_whole() && behind == before);
        writeln!(
            f,
            "read configuration {}, and slept until another one was there: {replaced}",
            before.number
        )?;
        writeln!(f, "read the same behind the sleep: {same}")?;
        write!(f, "filed before the section was closed: {filed}")
    }
}

/// Reads the configuration in a section, and sleeps there until it is replaced, and longer.
fn sleep_in_section<R: Clock>(
    rt: &R,
    cpu: &mut Cpu<Old>,
    configs: &Values<Config>,
    sign: &Sign,
    archive: &Archive,
) -> Result<Slept>
    requires { IsCellIn cpu.old.cpu.domain configs.now }
    ensures { IfOk result (λ s. s.behind ≡ s.before) }
{
    let mut section = cpu.read_lock()?; // srcu_read_lock
    let mut version = configs.find(cpu, &mut section); // srcu_dereference
    let before = configs.load(cpu, &mut version);
    sign.give(); // an updater waits for that
    let another = wait_for_another(rt, cpu, configs, before); // by then it has replaced the version
    sleep(rt, Duration::from_millis(NAP)); // a reader may sleep in its section
    let behind = configs.load(cpu, &mut version); // word for word the same, whatever was put meanwhile
    let filed = archive.count(); // 0: nobody takes it for one that is read no more
    drop(version);
    cpu.read_unlock(section); // srcu_read_unlock: code that leaves a section open is refused

    Ok(Slept {
        before,
        behind,
        another: another?,
        filed,
    })
}

/// The same in a thread of its own, which owns the processor.
pub fn read_and_sleep<R: Clock>(
    rt: &R,
    mut cpu: Cpu<Old>,
    configs: &Values<Config>,
    sign: &Sign,
    archive: &Archive,
) -> Result<Slept>
    requires { IsCellIn cpu.cpu.domain configs.now }
    ensures { IfOk result (λ s. s.behind ≡ s.before) }
{
    sleep_in_section(rt, &mut cpu, configs, sign, archive)
}

/// Reads the configuration twice in one section. None unless both are whole, and the second no older.
#[tactic(auto, using(srcu::proofs::CallerLemmas::stays_trans))]
fn read_twice(section: &mut Section<'_, Old>, configs: &Values<Config>) -> Option<Config>
    requires { IsOpenHere section.old × HasCell section.old configs.now }
    ensures { StaysOpen section.old section.new }
{
    let first = Some(section.get(configs)).filter(Config::is_whole)?; // `?` may leave a section: it ends by itself
    let second = Some(section.get(configs)).filter(Config::is_whole)?; // another version, if one was put meanwhile
    (second.number >= first.number).then_some(second)
}

/// Reads in so many sections. Answers whether whole versions were there in each of them.
pub fn read_quickly(
    worker: &mut Worker<'_, Old>,
    configs: &Values<Config>,
    times: u32,
) -> Result<bool>
    requires { IsCellOf worker.old.domain configs.now }
{
    let mut whole = true;
    for _ in 0..times {
        whole &= worker
            .section(|section| read_twice(section, configs))?
            .is_some();
    }
    Ok(whole)
}

/// Opens a section, which another thread will close, and finds the configuration in it.
pub fn open(worker: &mut Worker<'_, Old>, configs: &Values<Config>) -> Result<HeldPin>
    requires { IsCellOf worker.old.domain configs.now }
    ensures domain { IfOk result (λ pin. pin.section.domain ≡ worker.old.domain.domain) }
    ensures found { IfOk result (λ pin. pin.found.cell ≡ configs.now.cell) }
{
    let held = worker.down_read()?; // srcu_down_read
    Ok(worker.find_held(configs, held))
}
