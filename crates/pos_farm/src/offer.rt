//! What a plot answers for a challenge, and the better of two offers.
ghost use Rattle.std.specs.Prelude.{◌≡◌, Some};
ghost use Rattle.pos_farm.specs.PlotAnswers.{best_in};
ghost use Rattle.pos_farm.specs.Steps.{best_or, first_or, is_no_worse, plot_first_or};

use pos_layout::Damage;
use pos_tuple::Size;

/// A proof that a plot offers: its place in table 7, its quality, the plot's size, and its values in the order of a proof.
#[derive(Clone, Copy, Debug, PartialEq, Eq)]
pub struct Offer {
    pub place: u64,
    pub quality: [u8; 32],
    pub size: Size,
    pub proof: [u64; 64],
}

/// What a plot answers for a challenge.
#[derive(Clone, Copy, Debug, PartialEq, Eq)]
pub enum Answer {
    /// No file has the name.
    Absent,
    DiskFailed,
    /// What opening the file finds, or what the file shows in place of its proofs.
    Damaged(Damage),
    /// It has so many proofs, of which this is the best.
    Proofs { number: u64, best: Option<Offer> },
}

/// The best offer of an answer.
pub fn best_in(answer: &Answer) -> Option<Offer>
    ensures { result ≡ best_in answer.now }
{
    match *answer {
        Answer::Absent | Answer::DiskFailed | Answer::Damaged(_) => None,
        Answer::Proofs { best, .. } => best,
    }
}

/// The earlier of two offers of one plot, of which the second has the greater place.
pub fn better(best: Option<Offer>, offer: Offer) -> Offer
    ensures { result ≡ first_or best offer }
{
    match best {
        Some(kept) => earlier(kept, offer),
        None => offer,
    }
}

fn earlier(kept: Offer, offer: Offer) -> Offer
    ensures { result ≡ first_or (Some kept) offer }
{
    if is_no_worse(&kept, &offer) {
        kept
    } else {
        offer
    }
}

/// The earlier of two offers of two plots, of which the second, if there is one, has the greater number.
pub fn better_plot(
    best: Option<(u64, Offer)>,
    number: u64,
    offered: Option<Offer>,
) -> Option<(u64, Offer)>
    ensures { result ≡ best_or best number offered }
{
    match offered {
        Some(offer) => Some(earlier_plot(best, number, offer)),
        None => best,
    }
}

fn earlier_plot(best: Option<(u64, Offer)>, number: u64, offer: Offer) -> (u64, Offer)
    ensures { result ≡ plot_first_or best (number, offer) }
{
    match best {
        Some(kept) => {
            if is_no_worse(&kept.1, &offer) {
                kept
            } else {
                (number, offer)
            }
        }
        None => (number, offer),
    }
}

/// Whether the quality of the first is at most that of the other.
fn is_no_worse(offer: &Offer, other: &Offer) -> bool
    ensures { result ≡ is_no_worse offer.now other.now }
{
    offer.quality <= other.quality
}
