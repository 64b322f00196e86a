// Rows of things, with a space between them, up to the parenthesis that closes them.
ghost use Rattle.std.specs.Prelude.{◌≡◌, ℕ, List, Option};
ghost use Rattle.octets.specs.Joined.{ReadsOne, ReadsJoined, list_joined};

use super::classes::octet_at;

// What is read of one thing of a row, and of two things of it together.
pub trait Joined: Copy {
    ghost one: { List ℕ → ℕ → Option (Self × ℕ) };

    ghost joins: { Self → Self → Self };

    fn one_at(text: &[u8], at: usize) -> Option<(Self, usize)>
        ensures { ReadsOne text.now at (one text.now at) result };

    fn join(self, rest: Self) -> Self
        ensures { result ≡ joins self rest };
}

// Things up to the parenthesis that closes them.
pub fn row_to_close<T: Joined>(text: &[u8], at: usize) -> Option<(T, usize)>
    ensures { ReadsJoined text.now (T.one text.now) T.joins at result }
{
    let (first, next) = T::one_at(text, at)?;
    match octet_at(text, next) {
        b' ' => {
            let (rest, end) = row_to_close::<T>(text, next + 1)?;
            Some((first.join(rest), end))
        }
        b')' => Some((first, next + 1)),
        _ => None,
    }
}

// Things in parentheses.
pub fn list_at<T: Joined>(text: &[u8], at: usize) -> Option<(T, usize)>
    ensures { ReadsOne text.now at (list_joined (T.one text.now) T.joins text.now at) result }
{
    if octet_at(text, at) != b'(' {
        return None;
    }
    row_to_close(text, at + 1)
}
