// The entry: document 01, "What the station takes and hands back" and "When the station says no". The conditions are tried in their
// order, and every byte of the output and the ledger is told, whatever the inputs are. Its steps are public, so that an entry for another
// kind of input is made of the same ones.
#![tactic(auto)]

ghost use Rattle.std.specs.Prelude.{◌≡◌, length};
ghost use Rattle.layout.specs.Heads.{unless};
ghost use Rattle.layout.specs.Source.{explicitly};
ghost use Rattle.table.specs.Rows.{table};
ghost use Rattle.outcome.specs.Outcome.{report_of, output_of, ledger_of};
ghost use Rattle.station.specs.Entry.{told, input_of, report};
ghost use Rattle.station.specs.Steps.{early, Judged, left, zeroed, Counted, finished, finished_output, finished_ledger};

use refusals::{Fault, Refusal};
use treatment::{SettingNumbers, SettingTexts};
use write_state::Progress;

// The first of the conditions 1 to 5 that holds of an input of `len` bytes, or none. The settings come one by one, here and in `deidentify`,
// as C hands them: only what passes here is a `SettingNumbers`.
#[tactic(auto, unfolding(crate::specs::Steps::early))]
pub fn early_refusal(
    len: usize,
    options: u64,
    shift: i64,
    root: &[u8],
    study: &[u8],
    site: &[u8],
    ledger: &[u8],
    used: usize,
) -> Result<(), Refusal>
    ensures { result ≡ unless (early len (told options shift root.now study.now site.now) ledger.now used) tt }
{
    if options::settings_fault(options, shift) {
        return Err(Refusal::BadSettings);
    }
    if !uid::is_root(root) {
        return Err(Refusal::BadRoot);
    }
    if ledger::slots(ledger) < used {
        return Err(Refusal::BadCount);
    }
    if !lists::list_ok(study) || !lists::list_ok(site) {
        return Err(Refusal::BadList);
    }
    if layout::LONGEST < len {
        return Err(Refusal::TooLong);
    }
    Ok(())
}

// The first fault of shape (6 to 10), else the first among the values (11 and 12), or the place past the data set. No `?`: the wrong program
// that loses a fault's offset here (shape_without_offset) can be refused for what it means only where the fault is handed on by name.
pub fn judge(rows: &[u64], n: SettingNumbers, lent: &[u8]) -> Result<usize, Fault>
    requires { rows.now ≡ table }
    ensures { Judged n (explicitly lent.now) result }
{
    match layout::shape_of(lent) {
        Err(fault) => Err(fault),
        Ok(_) => judge_values::first_fault(rows, n, lent),
    }
}

// A refusal: nothing of the output is left, and of the ledger the slots in use; where there are fewer slots than that, it is left alone.
// What names the refusal is handed back with its offset, whatever it is: an entry for another kind of input has refusals of its own.
pub fn refuse<R>(
    refusal: R,
    offset: usize,
    ledger: &mut [u8],
    used: usize,
    out: &mut [u8],
) -> Result<Progress, (R, usize)>
    ensures answer { result ≡ Err (refusal, offset) }
    ensures output { out.new ≡ zeroed out.old }
    ensures ledger { ledger.new ≡ left ledger.old used }
{
    buffer::zero_from(out, 0);
    if used <= ledger::slots(ledger) {
        ledger::zero_rest(ledger, used);
    }
    Err((refusal, offset))
}

// The same of a fault.
fn refuse_fault(
    fault: Fault,
    ledger: &mut [u8],
    used: usize,
    out: &mut [u8],
) -> Result<Progress, Fault>
    ensures answer { result ≡ Err fault }
    ensures output { out.new ≡ zeroed out.old }
    ensures ledger { ledger.new ≡ left ledger.old used }
{
    match refuse(fault.refusal, fault.offset, ledger, used, out) {
        Err((same, at)) => Err(Fault {
            refusal: same,
            offset: at,
        }),
        Ok(t) => Ok(t),
    }
}

// After the walk that writes: no slot for a UID (13), no room for the output (14), or done.
pub fn finish(
    walk: Option<(usize, Progress)>,
    ledger: &mut [u8],
    used: usize,
    out: &mut [u8],
) -> Result<Progress, Fault>
    requires { Counted ledger.old walk }
    ensures answer { result ≡ finished out.old walk }
    ensures output { out.new ≡ finished_output out.old walk }
    ensures ledger { ledger.new ≡ finished_ledger out.old ledger.old used walk }
{
    let Some((_, t)) = walk else {
        return refuse_fault(Refusal::NoSlot.as_fault(), ledger, used, out);
    };
    let pos = t.pos;
    if out.len() < pos {
        return refuse_fault(Refusal::NoRoom.as_fault(), ledger, used, out);
    }
    buffer::zero_from(out, pos);
    ledger::zero_rest(ledger, t.used);
    Ok(t)
}

// The station, for all inputs: how far the walk came, or why the input is refused.
pub fn deidentify<'a>(
    lent: &[u8],
    options: u64,
    shift: i64,
    root: &[u8],
    study: &'a [u8],
    site: &'a [u8],
    ledger: &mut [u8],
    used: usize,
    out: &mut [u8],
) -> Result<Progress, Fault>
    ensures answer { report used result ≡ report_of (input_of (explicitly lent.now) (told options shift root.now study.now site.now) ledger.old used (length out.old)) }
    ensures output { out.new ≡ output_of (input_of (explicitly lent.now) (told options shift root.now study.now site.now) ledger.old used (length out.old)) }
    ensures ledger { ledger.new ≡ ledger_of (input_of (explicitly lent.now) (told options shift root.now study.now site.now) ledger.old used (length out.old)) }
{
    match early_refusal(lent.len(), options, shift, root, study, site, ledger, used) {
        Err(refusal) => refuse_fault(refusal.as_fault(), ledger, used, out),
        Ok(()) => {
            let days = options::days_of(shift);
            let n = SettingNumbers { options, days };
            let rows = table::rows();
            match judge(&rows, n, lent) {
                Err(fault) => refuse_fault(fault, ledger, used, out),
                Ok(_) => {
                    let texts = SettingTexts { root, study, site };
                    let walk = write_walk::write(&rows, n, texts, lent, ledger, used, out, 0);
                    finish(walk, ledger, used, out)
                }
            }
        }
    }
}
