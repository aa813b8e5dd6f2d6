// The reader of typed patterns: the refusals 18 to 20, or the items.
#![tactic(auto)]

ghost use Rattle.text.specs.Typed.{Typed};

use items::Items;
use readers::Order;
use refusals::Refusal;

// The items of a text under an alphabet, or the first refusal of 18 to 20 that applies.
pub fn read_text(text: &[u8], alphabet: u32) -> Result<Items, Refusal>
    ensures { Typed text.now alphabet result }
{
    if 255 < text.len() {
        return Err(Refusal::Unreadable);
    }
    let mut order = Order::new();
    let Some(end) = readers::read_choice(text, &mut order) else {
        return Err(Refusal::Unreadable);
    };
    if end < text.len() {
        return Err(Refusal::Unreadable);
    }
    if 64 < order.len() {
        return Err(Refusal::ManyItems);
    }
    if symbols::has_strange(text, alphabet) {
        return Err(Refusal::StrangeLetter);
    }
    Ok(symbols::items_by(text, alphabet, &order))
}
