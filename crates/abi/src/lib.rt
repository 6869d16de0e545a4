// The C interface (include/corravisk.h): each function is a thin layer over the crate that it is named for. Nothing is asked of the
// caller but that pointers and lengths are true and that what may be written overlaps nothing else. The crate abi_c exports them to C.
#![tactic(auto)]

ghost use Rattle.std.specs.Prelude.{◌≡◌, length};
ghost use Rattle.layout.specs.Source.{explicitly};
ghost use Rattle.view.specs.View.{view_of};
ghost use Rattle.outcome.specs.Outcome.{report_of, output_of, ledger_of};
ghost use Rattle.station.specs.Entry.{told, input_of, report as report_for};
ghost use Rattle.abi.specs.Numbers.{view_numbers, report_numbers, fate_number, level_meant, action_numbers};

use refusals::Fault;
use treatment::{Fate, Level};
use write_state::Progress;

// The eight numbers of an outcome: a refusal hands back the count that was given.
fn numbers_of(outcome: Result<Progress, Fault>, used: u64) -> [u64; 8]
    ensures { result ≡ report_numbers (report_for used outcome) }
{
    match outcome {
        Err(fault) => {
            let number = u64::from(fault.refusal.number());
            [number, fault.offset as u64, 0, used, 0, 0, 0, 0]
        }
        Ok(t) => [
            0,
            0,
            t.pos as u64,
            t.used as u64,
            t.kept as u64,
            t.replaced as u64,
            t.renamed as u64,
            t.removed as u64,
        ],
    }
}

// refusal number (0: done), offset, length, count in use, kept, replaced, renamed, removed
pub fn corravisk_deidentify<'a>(
    lent: &[u8],
    options: u64,
    shift: i64,
    root: &[u8],
    study: &'a [u8],
    site: &'a [u8],
    ledger: &mut [u8],
    used: u64,
    out: &mut [u8],
    report: &mut [u64; 8],
)
    ensures report { report.new ≡ report_numbers (report_of (input_of (explicitly lent.now) (told options shift root.now study.now site.now) ledger.old used (length out.old))) }
    ensures output { out.new ≡ output_of (input_of (explicitly lent.now) (told options shift root.now study.now site.now) ledger.old used (length out.old)) }
    ensures ledger { ledger.new ≡ ledger_of (input_of (explicitly lent.now) (told options shift root.now study.now site.now) ledger.old used (length out.old)) }
{
    let outcome = station::deidentify(
        lent,
        options,
        shift,
        root,
        study,
        site,
        ledger,
        used as usize,
        out,
    );
    *report = numbers_of(outcome, used);
}

// refusal number (0: none), offset, 1 if found else 0, start and length of the part (0, 0 if not found)
pub fn corravisk_view(lent: &[u8], tag: u64, answer: &mut [u64; 5])
    ensures { answer.new ≡ view_numbers (view_of (explicitly lent.now) tag) }
{
    *answer = match view::answer_to(lent, tag) {
        Ok(Some(part)) => {
            let len = part.end - part.start;
            [0, 0, 1, part.start as u64, len as u64]
        }
        Ok(None) => [0; 5],
        Err(fault) => {
            let number = u64::from(fault.refusal.number());
            [number, fault.offset as u64, 0, 0, 0]
        }
    };
}

// The number of what happens to an element: the cases of `Fate` stand in the order of the numbers.
fn fate_number(fate: Fate) -> u64
    ensures { result ≡ fate_number fate }
{
    fate as u64
}

// The level that the caller's number means, since C hands numbers: 1 is the top.
fn level_of(top: u64) -> Level
    ensures { result ≡ level_meant top }
{
    if top == 1 {
        return Level::Top;
    }
    Level::Inner
}

// what happens to an element of this tag and VR: 0 removed, 1 kept, 2 walked into, 3 emptied, 4 dummied, 5 renamed, 6 shifted, 7 refused
pub fn corravisk_action(options: u64, top: u64, tag: u64, vr: u64, answer: &mut [u64; 1])
    ensures { answer.new ≡ action_numbers options top tag vr }
{
    let rows = table::rows();
    let level = level_of(top);
    let fate = treatment::fate_of(&rows, options, level, tag, vr);
    *answer = [fate_number(fate)];
}
