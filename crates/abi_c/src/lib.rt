// The static library that C links (include/corravisk.h): each export calls the function of the crate abi that has its name, and states
// that function's clauses again, word for word (tools/check-docs compares them). They stand twice, since an export has to stand in the static
// library's own crate, and a crate is a library or a static library and not both (docs/DECISIONS.md, B42).
#![tactic(auto)]

ghost use Rattle.std.specs.Prelude.{◌≡◌, length};
ghost use Rattle.layout.specs.Source.{explicitly};
ghost use Rattle.view.specs.View.{view_of};
ghost use Rattle.outcome.specs.Outcome.{report_of, output_of, ledger_of};
ghost use Rattle.station.specs.Entry.{told, input_of};
ghost use Rattle.abi.specs.Numbers.{view_numbers, report_numbers, action_numbers};

// refusal number (0: done), offset, length, count in use, kept, replaced, renamed, removed
#[unsafe(no_mangle)]
pub extern "C" fn corravisk_deidentify<'a>(
    lent: &[u8],
    options: u64,
    shift: i64,
    root: &[u8],
    study: &'a [u8],
    site: &'a [u8],
    ledger: &mut [u8],
    used: u64,
    out: &mut [u8],
    report: &mut [u64; 8],
)
    ensures report { report.new ≡ report_numbers (report_of (input_of (explicitly lent.now) (told options shift root.now study.now site.now) ledger.old used (length out.old))) }
    ensures output { out.new ≡ output_of (input_of (explicitly lent.now) (told options shift root.now study.now site.now) ledger.old used (length out.old)) }
    ensures ledger { ledger.new ≡ ledger_of (input_of (explicitly lent.now) (told options shift root.now study.now site.now) ledger.old used (length out.old)) }
{
    abi::corravisk_deidentify(
        lent, options, shift, root, study, site, ledger, used, out, report,
    );
}

// refusal number (0: none), offset, 1 if found else 0, start and length of the part (0, 0 if not found)
#[unsafe(no_mangle)]
pub extern "C" fn corravisk_view(lent: &[u8], tag: u64, answer: &mut [u64; 5])
    ensures { answer.new ≡ view_numbers (view_of (explicitly lent.now) tag) }
{
    abi::corravisk_view(lent, tag, answer);
}

// what happens to an element of this tag and VR: 0 removed, 1 kept, 2 walked into, 3 emptied, 4 dummied, 5 renamed, 6 shifted, 7 refused
#[unsafe(no_mangle)]
pub extern "C" fn corravisk_action(options: u64, top: u64, tag: u64, vr: u64, answer: &mut [u64; 1])
    ensures { answer.new ≡ action_numbers options top tag vr }
{
    abi::corravisk_action(options, top, tag, vr, answer);
}
