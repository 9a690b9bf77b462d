// The lines of what the plots of a list answer.
ghost use Rattle.std.specs.Prelude.{◌≡◌, ◌^◌, ◌<◌, ◌++◌, ◌∷◌, [], All, IfOk, IfSome, OnOk, codes, string_bytes};
ghost use Rattle.std.specs.Fmt.{decimal};
ghost use Rattle.hex.specs.Hex.{encode_lower};
ghost use Rattle.pos_order.specs.Values.{value_bytes};
ghost use Rattle.pos_app.specs.FarmTexts.{answer_words, bad_line, best_line, farm_text, plot_line};
ghost use Rattle.pos_app.specs.Texts.{line};

use pos_farm::{Answer, Offer};
use pos_order::proof_bytes;
use pos_text::damage_line;
use pos_tuple::Size;
use std::alloc::{AllocError, Global};

/// A line for each of these answers, and then that of the best proof.
pub fn farm_text(
    alloc: Global,
    answers: &[Answer],
    best: Option<(u64, Offer)>,
) -> Result<String, AllocError>
    requires { IfSome best (λ best. All (λ x. x < 2 ^ best.1.size) best.1.proof) }
    ensures { IfOk result (λ text. string_bytes text ≡ farm_text answers.now best) }
{
    let mut text = String::new(alloc);
    for i in 0..answers.len() {
        push_answer(alloc, &mut text, i as u64, &answers[i])?;
    }
    let line = best_line(alloc, best)?;
    text.push_str(line.as_str())?;
    Ok(text)
}

// Appends the line of a plot.
#[tactic(auto, using(crate::proofs::FarmTextLemmas::plot_line_is))]
fn push_answer(
    alloc: Global,
    text: &mut String,
    plot: u64,
    answer: &Answer,
) -> Result<(), AllocError>
    ensures { OnOk result (string_bytes text.new ≡ string_bytes text.old ++ plot_line plot answer.now) }
{
    let rest = answer_line(alloc, answer)?;
    let line = format!(in alloc; "plot {plot} {rest}")?;
    text.push_str(line.as_str())
}

// What stands behind the number of a plot.
fn answer_line(alloc: Global, answer: &Answer) -> Result<String, AllocError>
    ensures { IfOk result (λ rest. string_bytes rest ≡ line (answer_words answer.now)) }
{
    match answer {
        Answer::Absent => format!(in alloc; "absent\n"),
        Answer::DiskFailed => format!(in alloc; "disk fault\n"),
        Answer::Damaged(damage) => damage_line(alloc, damage),
        Answer::Proofs { number, .. } => format!(in alloc; "proofs {number}\n"),
    }
}

// The line of the best proof, if there is one.
fn best_line(alloc: Global, best: Option<(u64, Offer)>) -> Result<String, AllocError>
    requires { IfSome best (λ best. All (λ x. x < 2 ^ best.1.size) best.1.proof) }
    ensures { IfOk result (λ line. string_bytes line ≡ best_line best) }
{
    match best {
        Some((plot, offer)) => offer_line(alloc, plot, &offer),
        None => format!(in alloc; "best none\n"),
    }
}

fn offer_line(alloc: Global, plot: u64, offer: &Offer) -> Result<String, AllocError>
    requires { All (λ x. x < 2 ^ offer.now.size) offer.now.proof }
    ensures { IfOk result (λ text. string_bytes text ≡ line (codes "best" ∷ encode_lower offer.now.quality ∷ decimal plot ∷ decimal offer.now.place
        ∷ encode_lower (value_bytes offer.now.size offer.now.proof) ∷ [])) }
{
    let quality = hex::encode(alloc, &offer.quality[..])?;
    let proof = proof_digits(alloc, offer.size, &offer.proof)?;
    let place = offer.place;
    format!(in alloc; "best {quality} {plot} {place} {proof}\n")
}

// The bytes of a proof in hexadecimal digits.
fn proof_digits(alloc: Global, size: Size, proof: &[u64; 64]) -> Result<String, AllocError>
    requires { All (λ x. x < 2 ^ size) proof.now }
    ensures { IfOk result (λ digits. string_bytes digits ≡ encode_lower (value_bytes size proof.now)) }
{
    let mut bytes = [0; 512];
    let count = proof_bytes(size, proof, &mut bytes);
    hex::encode(alloc, &bytes[..count])
}

/// The line of a list whose line of this number, from 0, is not that of a name, or is one too many.
pub fn bad_line(alloc: Global, number: u64) -> Result<String, AllocError>
    ensures { IfOk result (λ line. string_bytes line ≡ bad_line number) }
{
    format!(in alloc; "list line {number}\n")
}
