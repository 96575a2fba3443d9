//! A text cut in two at the first byte of a kind.
ghost use Rattle.std.specs.Prelude.{◌≡◌, ℕ, ◌↔◌, ◌==◌, List, Some, position};
ghost use Rattle.text.specs.Cut.{Cuts, cut_at, parts_of};

// The place of the first `stop`.
fn place_of(text: &[u8], stop: u8) -> Option<usize>
    ensures { result ≡ position (λ b. b == stop) text.now }
{
    text.iter().position(|b| *b == stop)
}

// The text before the first `stop`, and the text behind it.
// Stays: apart from `cut_at` by docs/DECISIONS.md, "Laws stand on thin public functions".
#[tactic(auto, using(crate::proofs::Cuts::cut_by_place, std::proofs::lemmas::List::take_rest))]
fn around<'a>(text: &'a [u8], stop: u8) -> Option<(&'a [u8], &'a [u8])>
    ensures { parts_of result ≡ cut_at stop text.now }
{
    let i = place_of(text, stop)?;
    Some((&text[..i], &text[i + 1..]))
}

// What stands before the first `stop`, and what stands behind it; none where there is no `stop`.
pub fn cut_at<'a>(text: &'a [u8], stop: u8) -> Option<(&'a [u8], &'a [u8])>
    ensures parts { parts_of result ≡ cut_at stop text.now }
    ensures exact { (front rest : List ℕ) → (parts_of result ≡ Some (front, rest)) ↔ Cuts stop text.now front rest }
{
    around(text, stop)
}
