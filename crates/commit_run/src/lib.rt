// Runs a list of log commits on one stock, each on what the one before left.
#![tactic(auto)]

ghost use Rattle.std.specs.Prelude.{◌≡◌, ◌+◌, ◌*◌, ◌<◌, ◌≤◌, length, set};
ghost use Rattle.commit_run.specs.RunLogs.{RunLogsPre, log_from, answered, RunStepPost, RunLogsPost};
ghost use Rattle.stock.specs.Stock.{stock};

use grid::DexelStockSpec;
use refusal::Refusal;
use stock::Tally;

// Writes two numbers to the cells of answer i.
fn put_numbers(answers: &mut [u64], i: usize, kind: u64, number: u64)
    requires { 2 * i + 1 < length answers.old }
    ensures { answers.new ≡ set (set answers.old (2 * i) kind) (2 * i + 1) number }
{
    answers[2 * i] = kind;
    answers[2 * i + 1] = number;
}

// Tells answer i.
fn put_answer(answers: &mut [u64], i: usize, answer: Result<u64, Refusal>)
    requires { 2 * i + 1 < length answers.old }
    ensures { answers.new ≡ answered answers.old i answer }
{
    match answer {
        Ok(n) => put_numbers(answers, i, 0, n),
        Err(e) => put_numbers(answers, i, 1, u32::from(e) as u64),
    }
}

// Commits the log in the cells from `at` to `end`, and tells its answer as number i.
fn run_one(
    spec: DexelStockSpec,
    units: &[u8],
    spans: &mut [f64],
    links: &mut [u64],
    heads: &mut [u64],
    tally: Tally,
    logs: &[f64],
    at: usize,
    end: usize,
    allowance: u64,
    work: &mut [f64],
    answers: &mut [u64],
    i: usize,
) -> Tally
    requires { (at ≤ end) × (end ≤ length logs.now) × (2 * i + 1 < length answers.old) }
    ensures { RunStepPost spec units.now
        (stock spans.old links.old heads.old tally.generation tally.intervals)
        (log_from logs.now at end) allowance
        work.old answers.old i
        (stock spans.new links.new heads.new result.generation result.intervals)
        work.new answers.new }
{
    let done = commit_log::commit_log_on(
        tally.generation,
        tally.intervals,
        spec,
        units,
        spans,
        links,
        heads,
        &logs[at..end],
        allowance,
        work,
    );
    let answer = done.answer;
    put_answer(answers, i, answer);
    Tally {
        generation: done.generation,
        intervals: done.intervals,
    }
}

// Commits all logs in order, and answers the small record that they leave.
pub fn run_logs(
    spec: DexelStockSpec,
    units: &[u8],
    spans: &mut [f64],
    links: &mut [u64],
    heads: &mut [u64],
    tally: Tally,
    logs: &[f64],
    ends: &[usize],
    allowances: &[u64],
    work: &mut [f64],
    answers: &mut [u64],
) -> Tally
    requires { RunLogsPre logs.now ends.now allowances.now answers.old }
    ensures { RunLogsPost spec units.now logs.now ends.now allowances.now
        (stock spans.old links.old heads.old tally.generation tally.intervals)
        work.old answers.old
        (stock spans.new links.new heads.new result.generation result.intervals)
        work.new answers.new }
{
    let count = ends.len();
    let mut left = tally;
    let mut at: usize = 0;
    for i in 0..count {
        let end = ends[i];
        left = run_one(
            spec,
            units,
            spans,
            links,
            heads,
            left,
            logs,
            at,
            end,
            allowances[i],
            work,
            answers,
            i,
        );
        at = end;
    }
    left
}
