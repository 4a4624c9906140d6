//! Reads the classes of patterns.

ghost use Rattle.std.specs.Prelude.{◌≡◌, [], ◌∷◌, ◌<◌, IfOk, IfSome, MatchOption, length};
ghost use Rattle.wild_glob.specs.Class as spec;

use crate::piece::ClassItem;
use sqlite_items::Items;
use std::alloc::Global;
use wild_names::NoMemory;

/// How many characters the items of a class have, which begin the text: those before the first `]` that is not in
/// first place. None where no `]` closes the class.
pub fn items_len(text: &[char]) -> Option<usize>
    ensures value { result ≡ spec.items_len text.now }
    ensures within { IfSome result (λ n. n < length text.now) }
{
    for i in 1..text.len() {
        if text[i] == ']' {
            return Some(i);
        }
    }
    None
}

fn first_item(content: &[char]) -> Option<(ClassItem, &[char])>
    ensures { MatchOption result (content.now ≡ []) (λ first. (spec.class_items content.now ≡ first.0 ∷ spec.class_items first.1.now) × (length first.1.now < length content.now)) }
{
    match content {
        [] => None,
        [low, '-', high, behind @ ..] => Some((ClassItem::Range(*low, *high), behind)),
        [character, behind @ ..] => Some((ClassItem::One(*character), behind)),
    }
}

/// The items that the characters between the brackets list. Fails where memory runs out.
pub fn class_items(alloc: Global, content: &[char]) -> Result<Items<ClassItem>, NoMemory>
    ensures { IfOk result (λ items. items ≡ spec.class_items content.now) }
{
    let mut items = Items::new(alloc);
    let mut rest = content;
    while let Some((item, behind)) = first_item(rest) {
        items.push(item)?;
        rest = behind;
    }
    Ok(items)
}
