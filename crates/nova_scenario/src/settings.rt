ghost use Rattle.std.specs.Prelude.{◌≡◌, ◌≤◌, ◌^◌, IfSome, IfOk};
ghost use Rattle.nova_scenario.specs.Sources.{cpu_below, source_of};
ghost use Rattle.nova_scenario.specs.Settings.{within, aligned, pc_of, root_of, entered_at, entered, set_once, with_setting, is_whole, ram_size, unset, HasSmallRam};

use crate::fault::Why;
use crate::source::SourceRow;
use crate::statement::{Setting, SourceHead, Start};

/// The most processors of a scenario, and the most consoles.
const MAX_CPUS: u32 = 8;

const MAX_CONSOLES: u32 = 16;

/// The greatest order of the number of RAM frames: 64 MiB.
const MAX_RAM_ORDER: u8 = 14;

/// The greatest quantum, in turns: what 24 bits hold.
const MAX_QUANTUM: u32 = 16_777_215;

/// The greatest number of a source's line, in ticks or firings.
const MAX_SOURCE: u32 = 10_000_000;

/// How the first thread starts, and its scheduling context.
#[derive(Clone, Copy)]
pub struct Root {
    /// Nothing, where the first executable is to say it and is not there yet.
    pub pc: Option<u32>,
    pub sp: u32,
    pub priority: u8,
    pub quantum: u32,
}

/// What the lines so far set.
#[derive(Clone, Copy)]
pub struct Settings {
    pub cpus: Option<u32>,
    pub ram: Option<u8>,
    pub consoles: Option<u32>,
    pub root: Option<Root>,
}

/// `number`, if it is from `low` to `high`.
fn within(low: u32, high: u32, number: Option<u32>) -> Option<u32>
    ensures number { result ≡ within low high number }
    ensures bound { IfSome result (λ n. n ≤ high) }
{
    number.filter(|n| low <= *n && *n <= high)
}

/// `number`, if it is a byte of at most `high`.
fn byte_within(high: u8, number: Option<u32>) -> Option<u8>
    ensures number { result ≡ within 0 high number }
    ensures bound { IfSome result (λ n. n ≤ high) }
{
    match within(0, u32::from(high), number) {
        Some(n) => Some(n as u8),
        None => None,
    }
}

/// `number`, if it is a multiple of 4.
fn aligned(number: Option<u32>) -> Option<u32>
    ensures { result ≡ aligned number }
{
    number.filter(|n| *n % 4 == 0)
}

/// Where the first thread starts, by `start`; nothing yet, where the first executable is to say it.
fn pc_of(start: Start) -> Option<Option<u32>>
    ensures { result ≡ pc_of start }
{
    match start {
        Start::Address(number) => Some(Some(aligned(number)?)),
        Start::Entry => Some(None),
    }
}

/// What is set where it was `old`.
fn set_once<T: Copy>(old: Option<T>, new: Option<T>) -> Result<T, Why>
    ensures { result ≡ set_once old new }
{
    match (old, new) {
        (Some(_), _) => Err(Why::Repeated),
        (None, None) => Err(Why::Range),
        (None, Some(new)) => Ok(new),
    }
}

/// `number`, if it is that of a processor that is there.
fn cpu_below(cpus: Option<u32>, number: Option<u32>) -> Option<u32>
    ensures { result ≡ cpu_below cpus number }
{
    match (cpus, number) {
        (Some(cpus), Some(n)) if n < cpus => Some(n),
        _ => None,
    }
}

impl Root {
    /// The first thread of these numbers, where each is in its range.
    fn of(
        start: Start,
        sp: Option<u32>,
        priority: Option<u32>,
        quantum: Option<u32>,
    ) -> Option<Root>
        ensures { result ≡ root_of (pc_of start) sp (within 0 255 priority) (within 1 16777215 quantum) }
    {
        Some(Root {
            pc: pc_of(start)?,
            sp: sp?,
            priority: byte_within(255, priority)?,
            quantum: within(1, MAX_QUANTUM, quantum)?,
        })
    }
}

impl Root {
    /// The first thread with the entry of an executable, which is its start where none is known so far.
    fn entered(self, entry: u64) -> Result<Root, Why>
        ensures { result ≡ entered_at self self.pc entry }
    {
        if self.pc.is_some() {
            return Ok(self);
        }
        match u32::try_from(entry) {
            Ok(pc) if pc % 4 == 0 => {
                let mut root = self;
                root.pc = Some(pc);
                Ok(root)
            }
            _ => Err(Why::Range),
        }
    }
}

impl Settings {
    /// No settings.
    pub fn new() -> Settings
        ensures { result ≡ unset }
    {
        Settings {
            cpus: None,
            ram: None,
            consoles: None,
            root: None,
        }
    }

    /// The settings with `setting`.
    pub fn with(self, setting: Setting) -> Result<Settings, Why>
        ensures setting { result ≡ with_setting self setting }
        ensures ram { HasSmallRam self → IfOk result HasSmallRam }
    {
        let mut settings = self;
        match setting {
            Setting::Cpus(n) => settings.cpus = Some(set_once(self.cpus, within(1, MAX_CPUS, n))?),
            Setting::Ram(m) => settings.ram = Some(set_once(
                self.ram,
                byte_within(MAX_RAM_ORDER, m),
            )?),
            Setting::Consoles(c) => {
                settings.consoles = Some(set_once(self.consoles, within(0, MAX_CONSOLES, c))?);
            }
            Setting::Root {
                start,
                sp,
                priority,
                quantum,
            } => {
                let root = Root::of(start, sp, priority, quantum);
                settings.root = Some(set_once(self.root, root)?);
            }
        }
        Ok(settings)
    }

    /// The settings with the executable's `entry` as the root's pc, where the root has none yet: Range where that is no multiple of 4 below 2^32.
    pub fn entered(self, entry: u64) -> Result<Settings, Why>
        ensures entry { result ≡ entered self self.root entry }
        ensures ram { HasSmallRam self → IfOk result HasSmallRam }
    {
        let mut settings = self;
        if let Some(root) = self.root {
            settings.root = Some(root.entered(entry)?);
        }
        Ok(settings)
    }

    /// The source of the line `head`, where each number is in its range.
    pub fn source_of(self, head: SourceHead) -> Option<SourceRow>
        ensures { result ≡ source_of self.cpus head }
    {
        Some(SourceRow {
            cpu: cpu_below(self.cpus, head.cpu)?,
            first: u64::from(within(0, MAX_SOURCE, head.first)?),
            period: u64::from(within(1, MAX_SOURCE, head.period)?),
            count: u64::from(within(1, MAX_SOURCE, head.count)?),
        })
    }

    /// Whether all settings are set.
    pub fn is_whole(self) -> bool
        ensures { result ≡ is_whole self }
    {
        self.cpus.is_some() && self.ram.is_some() && self.consoles.is_some() && self.root.is_some()
    }

    /// The size of RAM in bytes, 0 where it is not set.
    pub fn ram_size(self) -> u64
        requires { HasSmallRam self }
        ensures size { result ≡ ram_size self }
        ensures small { result ≤ 2 ^ 26 }
    {
        match self.ram {
            Some(m) => 4096 << m,
            None => 0,
        }
    }
}
