// What is done with one element that is not walked into: document 01, "What each action writes". It is written, its UIDs are found in the
// ledger or added to it, and it is counted. The walk that comes by is `write_walk`.
#![tactic(auto)]

ghost use Rattle.std.specs.Prelude.{◌-◌, ◌≤◌, length};
ghost use Rattle.treatment.specs.Settings.{settings_in};
ghost use Rattle.write_state.specs.Bounds.{one_element};
ghost use Rattle.write_state.specs.Wrote.{Ready, Countable, Wrote, ActPass};

use treatment::{Fate, SettingNumbers, SettingTexts};
use write_state::{Element, Progress};

// What is to be done with an element that is not walked into: document 01, "What each action writes". No value is wrong here, since those
// were judged before anything is written. It takes the data set and the element's places, since it tells the place past the element.
pub fn act<'a>(
    fate: Fate,
    n: SettingNumbers,
    texts: SettingTexts<'a>,
    e: Element,
    s: &[u8],
    ledger: &mut [u8],
    out: &mut [u8],
    t: Progress,
) -> Option<(usize, Progress)>
    requires { (e.body ≤ e.past) × (e.past ≤ length s.now) × Ready texts.root.now ledger.old t (e.past - e.body) one_element × Countable t 1 }
    ensures { Wrote (ActPass (settings_in n texts.entry) fate e.tag e.vr s.now e.body e.past) e.body e.past one_element 1 out.old out.new ledger.old ledger.new t result }
{
    let value = &s[e.body..e.past];
    match fate {
        Fate::Removed => Some((e.past, t.one_removed())),
        Fate::Kept => {
            let pos = write_values::put_same(e.tag, e.vr, value, out, t.pos);
            Some((e.past, t.one_kept(pos)))
        }
        Fate::Emptied => {
            let pos = write_values::put_emptied(texts.study, texts.site, e.tag, e.vr, out, t.pos);
            Some((e.past, t.one_replaced(pos)))
        }
        Fate::Dummied => {
            let pos = write_values::put_dummied(texts.study, texts.site, e.tag, e.vr, out, t.pos);
            Some((e.past, t.one_replaced(pos)))
        }
        Fate::Shifted => {
            let pos = write_values::put_dates(e.tag, e.vr, value, n.days, out, t.pos);
            Some((e.past, t.one_replaced(pos)))
        }
        Fate::Renamed => {
            let (pos, used) = write_uids::put_renamed(
                e.tag, value, texts.root, ledger, t.used, out, t.pos,
            )?;
            Some((e.past, t.one_renamed(pos, used)))
        }
        Fate::Walked | Fate::Wrong => None,
    }
}
