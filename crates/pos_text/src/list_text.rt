//! The lines of a list of proofs, or of qualities.
ghost use Rattle.std.specs.Prelude.{◌≡◌, ◌^◌, ◌<◌, ◌++◌, ◌∷◌, [], All, IfOk, OnOk, codes, length, string_bytes};
ghost use Rattle.std.specs.Fmt.{decimal};
ghost use Rattle.hex.specs.Hex.{encode_lower};
ghost use Rattle.pos_order.specs.Values.{value_bytes};
ghost use Rattle.pos_text.specs.Texts.{line, proofs_text, qualities_text};

use pos_order::proof_bytes;
use pos_tuple::Size;
use std::alloc::{AllocError, Global};

/// The bytes of each of these proofs on a line, and then how many they are.
pub fn proofs_text(alloc: Global, size: Size, proofs: &[[u64; 64]]) -> Result<String, AllocError>
    requires { All (λ xs. All (λ x. x < 2 ^ size) xs) proofs.now }
    ensures { IfOk result (λ text. string_bytes text ≡ proofs_text size proofs.now) }
{
    let mut text = String::new(alloc);
    for proof in proofs {
        push_proof(alloc, &mut text, size, proof)?;
    }
    push_count(alloc, &mut text, proofs.len(), "proofs")?;
    Ok(text)
}

/// Each of these qualities on a line, and then how many they are.
pub fn qualities_text(alloc: Global, qualities: &[[u8; 32]]) -> Result<String, AllocError>
    ensures { IfOk result (λ text. string_bytes text ≡ qualities_text qualities.now) }
{
    let mut text = String::new(alloc);
    for quality in qualities {
        push_bytes(alloc, &mut text, &quality[..])?;
    }
    push_count(alloc, &mut text, qualities.len(), "qualities")?;
    Ok(text)
}

// Appends the line of a proof.
fn push_proof(
    alloc: Global,
    text: &mut String,
    size: Size,
    proof: &[u64; 64],
) -> Result<(), AllocError>
    requires { All (λ x. x < 2 ^ size) proof.now }
    ensures { OnOk result (string_bytes text.new ≡ string_bytes text.old ++ line (encode_lower (value_bytes size proof.now) ∷ [])) }
{
    let mut bytes = [0; 512];
    let count = proof_bytes(size, proof, &mut bytes);
    push_bytes(alloc, text, &bytes[..count])
}

// Appends a line of bytes.
fn push_bytes(alloc: Global, text: &mut String, bytes: &[u8]) -> Result<(), AllocError>
    ensures { OnOk result (string_bytes text.new ≡ string_bytes text.old ++ line (encode_lower bytes.now ∷ [])) }
{
    let digits = hex::encode(alloc, bytes)?;
    let line = format!(in alloc; "{digits}\n")?;
    text.push_str(line.as_str())
}

// Appends the line that says how many of these there are.
fn push_count(alloc: Global, text: &mut String, count: usize, noun: &str) -> Result<(), AllocError>
    ensures { OnOk result (string_bytes text.new ≡ string_bytes text.old ++ line (decimal count ∷ noun.now ∷ [])) }
{
    let line = format!(in alloc; "{count} {noun}\n")?;
    text.push_str(line.as_str())
}
