use lines::Name;
use requests::{Kind, Scene};

/// What is there in the tests: a domain `a` of 2 processors, with a look `r`, a section `s` that its own processor ends, a
/// held section `h`, one that is parked, `p`, a ticket `b`, and a lease `l`; and a set `k`.
pub struct Stage;

impl Scene for Stage {
    ghost use Rattle.std.specs.Prelude.{bytes_eq, codes, Some, None, if◌then◌else◌};
    ghost use Rattle.requests.specs.declared.scene.Kind.TheVariants.{Look, Reading, Held, Parked, Ticket, Lease};

    ghost scene = { λ _. record {
      place_of = λ w. if bytes_eq w (codes "a") then Some 0 else None;
      set_of = λ w. if bytes_eq w (codes "k") then Some 0 else None;
      processors_of = λ _. 2;
      kind_of = λ _ w. if bytes_eq w (codes "r") then Some Look
          else (if bytes_eq w (codes "s") then Some Reading
          else (if bytes_eq w (codes "h") then Some Held
          else (if bytes_eq w (codes "p") then Some Parked
          else (if bytes_eq w (codes "b") then Some Ticket
          else (if bytes_eq w (codes "l") then Some Lease else None)))));
    } };

    fn place_of(&self, domain: &[u8]) -> Option<usize> {
        if domain == b"a".as_slice() {
            Some(0)
        } else {
            None
        }
    }

    fn set_of(&self, set: &[u8]) -> Option<usize> {
        if set == b"k".as_slice() {
            Some(0)
        } else {
            None
        }
    }

    fn processors_of(&self, _place: usize) -> u64 {
        2
    }

    fn kind_of(&self, _place: usize, name: &Name) -> Option<Kind> {
        if name.is(b"r") {
            Some(Kind::Look)
        } else if name.is(b"s") {
            Some(Kind::Reading)
        } else if name.is(b"h") {
            Some(Kind::Held)
        } else if name.is(b"p") {
            Some(Kind::Parked)
        } else if name.is(b"b") {
            Some(Kind::Ticket)
        } else if name.is(b"l") {
            Some(Kind::Lease)
        } else {
            None
        }
    }
}
