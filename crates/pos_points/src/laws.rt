//! What holds of line points, whatever the code: each law is what a function with an empty body ensures.

ghost use Rattle.pos_points.specs.Points.{line_point, point_of};
ghost use Rattle.pos_lists.specs.Pairs.{greater, lesser};
ghost use Rattle.std.specs.Prelude.{◌≡◌, ◌≢◌, ℕ, ◌*◌, ◌<◌, max, min};

/// A line point is the place of its pair among all pairs in order, and each place is the line point of its pair.
pub fn points_are_places()
    ensures point_of_the_pair { (s : ℕ) → line_point (greater s) (lesser s) ≡ s }
    ensures in_order { (s : ℕ) → lesser s < greater s }
    ensures greater_of_the_point { (a b : ℕ) → b < a → greater (line_point a b) ≡ a }
    ensures lesser_of_the_point { (a b : ℕ) → b < a → lesser (line_point a b) ≡ b }
{}

/// Line points rise with the greater number, then with the lesser one.
pub fn points_keep_the_order()
    ensures rise_with_the_greater { (a b c d : ℕ) → b < a → a < c → line_point a b < line_point c d }
    ensures rise_with_the_lesser { (a b d : ℕ) → b < d → line_point a b < line_point a d }

    // the points of numbers below n are below half of its square
    ensures bounded { (a b n : ℕ) → b < a → a < n → 2 * line_point a b < n * n }
{}

/// The order in which the two numbers are given does not matter.
pub fn points_are_in_either_order()
    ensures same { (x y : ℕ) → point_of x y ≡ point_of y x }
    ensures ordered { (x y : ℕ) → y < x → point_of x y ≡ line_point x y }
    ensures greater { (x y : ℕ) → x ≢ y → greater (point_of x y) ≡ max x y }
    ensures lesser { (x y : ℕ) → x ≢ y → lesser (point_of x y) ≡ min x y }
{}
