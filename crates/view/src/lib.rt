// The attribute view: given a tag, the whole shape is judged, and the attribute of the top level is shown as a part of the caller's
// own data set. One walk does both: the top level is passed over in a loop that remembers where the tag stood, and under which VR.
#![tactic(auto)]

ghost use Rattle.std.specs.Prelude.{◌≡◌, length};
ghost use Rattle.layout.specs.Limits.{deepest};
ghost use Rattle.layout.specs.Source.{explicitly};
ghost use Rattle.layout.specs.Read.{read};
ghost use Rattle.view.specs.Search.{sought_in, search_of, SoughtFits};
ghost use Rattle.view.specs.View.{view_of, refusal_of, offset_of, found_of, Shows, Fits};
ghost use Rattle.view.specs.Met.{met_of};

use layout::{Container, Head};
use refusals::{Fault, Refusal};

// An element of the top level: its VR, where the part after its length field begins, and the place past it.
#[derive(Clone, Copy, Debug, PartialEq, Eq)]
pub struct Attribute {
    pub vr: u64,
    pub body: usize,
    pub past: usize,
}

// The part of a data set that is shown: where it begins, and the place past it. No `Range`: an answer that is read more than once is copied.
#[derive(Clone, Copy, Debug, PartialEq, Eq)]
pub struct Part {
    pub start: usize,
    pub end: usize,
}

// What is found once the element `tag` was passed: the first that is wanted stays.
fn met(found: Option<Attribute>, tag: u64, wanted: u64, passed: Attribute) -> Option<Attribute>
    ensures { result ≡ met_of found tag wanted passed }
{
    if tag == wanted && found.is_none() {
        return Some(passed);
    }
    found
}

// The search in a data set of any length.
fn seek(s: &[u8], wanted: u64) -> Result<Option<Attribute>, Fault>
    ensures { (result ≡ sought_in (read deepest (explicitly s.now)) wanted) × SoughtFits (length s.now) result }
{
    let mut at = 0;
    let mut low: u64 = 0;
    let mut found = None;
    loop {
        let head = layout::located(layout::element_head(s, at, s.len(), false, low), at)?;
        let (tag, vr, body, past) = match head {
            Head::End(_) => return Ok(found),
            Head::Plain {
                tag,
                vr,
                body,
                past,
            } => (tag, vr, body, past),
            Head::Seq {
                tag,
                body,
                stop,
                unstated,
            } => {
                let held = Container {
                    from: body,
                    end: stop,
                    unstated,
                    depth: layout::DEEPEST,
                };
                (tag, vr::SQ, body, layout::sequence(s, held)?)
            }
        };
        found = met(found, tag, wanted, Attribute { vr, body, past });
        at = past;
        low = tag + 1;
    }
}

// The search for every data set and tag: the element, or None where there is no such element on the top level.
#[tactic(auto, unfolding(crate::specs::Search::search_of))]
pub fn search(s: &[u8], tag: u64) -> Result<Option<Attribute>, Fault>
    ensures { (result ≡ search_of (explicitly s.now) tag) × SoughtFits (length s.now) result }
{
    if layout::LONGEST < s.len() {
        return Err(Refusal::TooLong.as_fault());
    }
    seek(s, tag)
}

// The answer for every data set and tag: the part that the search found, whatever its VR.
#[tactic(auto, unfolding(crate::specs::View::view_of))]
pub fn answer_to(s: &[u8], tag: u64) -> Result<Option<Part>, Fault>
    ensures { (result ≡ view_of (explicitly s.now) tag) × Fits (length s.now) result }
{
    let found = search(s, tag)?;
    Ok(found.map(|attribute| Part {
        start: attribute.body,
        end: attribute.past,
    }))
}

// The answer's numbers, and the part of `lent` that is the attribute, or an empty part.
// Its numbers go out by `&mut`, since the documents name this contract, which tells each of them.
pub fn view<'a>(
    lent: &'a [u8],
    tag: u64,
    refusal: &mut u64,
    offset: &mut u64,
    found: &mut u64,
) -> &'a [u8]
    ensures shown { Shows (view_of (explicitly lent.now) tag) result lent.entry }
    ensures refusal { refusal.new ≡ refusal_of (view_of (explicitly lent.now) tag) }
    ensures offset { offset.new ≡ offset_of (view_of (explicitly lent.now) tag) }
    ensures found { found.new ≡ found_of (view_of (explicitly lent.now) tag) }
{
    *refusal = 0;
    *offset = 0;
    *found = 0;
    match answer_to(lent, tag) {
        Ok(Some(part)) => {
            *found = 1;
            &lent[part.start..part.end]
        }
        Ok(None) => &lent[0..0],
        Err(fault) => {
            *refusal = u64::from(fault.refusal.number());
            *offset = fault.offset as u64;
            &lent[0..0]
        }
    }
}
