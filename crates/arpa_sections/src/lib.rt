// Where the reading of an ARPA text stands: the lines of the data section, and those that begin and end sections. The definitions that the contracts
// cite are in specs/.
#![tactic(auto)]

ghost use Rattle.std.specs.Prelude.{◌≡◌, List, ℕ, ◌<◌, ◌≤◌, ℤ};
ghost use Rattle.backoff.specs.Limits.{order_limit};
ghost use Rattle.arpa_sections.specs.Sections.{Reading, first_section, data_step, closes, close_section};
ghost use Rattle.arpa_sections.specs.declared.Stage.TheVariants.{Counts, Section};
ghost use Rattle.arpa_sections.specs.Held.{buckets_for, Held, StepHeld, entered, announcing};

use backoff::Reason;

// Where the reading stands: before the data section, in it, in the section of a length, or behind the end line.
#[derive(Clone, Copy)]
pub enum Stage {
    Start,
    Counts,
    Section(usize),
    Ended,
}

// What was read so far: the counts announced and how many they are, the lines of this section, all rows, the next word's number, and the index's chains.
// There is no heap, so the counts are an array with their number beside it.
#[derive(Clone, Copy)]
pub struct Progress {
    pub stage: Stage,
    pub counts: [u32; 5],
    pub order: usize,
    pub lines: usize,
    pub rows: usize,
    pub words: usize,
    pub buckets: usize,
}

// Another stage begins.
pub fn enter(progress: Progress, stage: Stage) -> Progress
    ensures { result ≡ entered progress stage }
{
    Progress {
        stage,
        lines: 0,
        ..progress
    }
}

// A count is announced.
fn announce(mut progress: Progress, count: u32) -> Progress
    requires { progress.order < order_limit }
    ensures { result ≡ announcing progress count }
{
    progress.counts[progress.order] = count;
    progress.order += 1;
    progress.lines = 0;
    progress
}

// How many chains the index has: as many as one-word lines are announced, as far as the table has rows for them, and one at least.
#[tactic(auto, unfolding(crate::specs::Held::buckets_for))]
fn buckets_for(announced: u32, rows: usize) -> usize
    ensures { result ≡ buckets_for announced rows }
{
    rows.min(announced as usize).max(1)
}

// The heading of the one-word section, behind one count at least.
fn first_section(line: &[u8], room: usize, mut progress: Progress) -> Result<Progress, Reason>
    ensures { (a : Reading) (size : ℕ) (t : List ℤ) (s : List ℕ) → progress.stage ≡ Counts → Held room size t s progress a → StepHeld room size t s (first_section a line.now) result }
{
    if progress.order == 0 {
        return Err(Reason::LineForm);
    }
    if !arpa_headings::is_section_line(line, 1) {
        return Err(Reason::LineForm);
    }
    progress.buckets = buckets_for(progress.counts[0], room / 8);
    Ok(enter(progress, Stage::Section(1)))
}

// A line of the data section.
pub fn data_step(line: &[u8], room: usize, progress: Progress) -> Result<Progress, Reason>
    requires { progress.order ≤ order_limit }
    ensures { (a : Reading) (size : ℕ) (t : List ℤ) (s : List ℕ) → progress.stage ≡ Counts → Held room size t s progress a → StepHeld room size t s (data_step a line.now) result }
{
    if progress.order < 5 {
        if let Some(count) = arpa_headings::read_count(line, progress.order + 1) {
            return Ok(announce(progress, count));
        }
    }
    first_section(line, room, progress)
}

// Whether the line closes the section of length m: the next heading, or the end line behind the last.
#[tactic(auto, unfolding(crate::specs::Sections::closes))]
pub fn closes_section(line: &[u8], m: usize, order: usize) -> bool
    requires { order ≤ order_limit }
    ensures { result ≡ closes m order line.now }
{
    if m < order {
        arpa_headings::is_section_line(line, m + 1)
    } else {
        arpa_headings::is_end_line(line)
    }
}

// The section of length m ends.
pub fn close_section(m: usize, progress: Progress) -> Result<Progress, Reason>
    requires { (1 ≤ m) × (m ≤ order_limit) }
    ensures { (a : Reading) (room size : ℕ) (t : List ℤ) (s : List ℕ) → progress.stage ≡ Section m → Held room size t s progress a → StepHeld room size t s (close_section m a) result }
{
    let announced = progress.counts[m - 1] as usize;
    if progress.lines != announced {
        return Err(Reason::SectionCount);
    }
    let next = if m < progress.order {
        Stage::Section(m + 1)
    } else {
        Stage::Ended
    };
    Ok(enter(progress, next))
}
