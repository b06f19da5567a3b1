//! What is there when a line is read.
ghost use Rattle.std.specs.Prelude.{◌≡◌};
ghost use Rattle.requests.specs.Scenes.{SceneView, IsPlace};

use lines::Name;

/// What has a name in a domain.
#[derive(Clone, Copy, Debug, PartialEq, Eq)]
pub enum Kind {
    /// A look.
    Look,
    /// An open section that only its own processor may end.
    Reading,
    /// An open section that any processor may end.
    Held,
    /// Such a section that lies on the domain's desk. Nothing can be done with it there.
    Parked,
    /// A ticket. It stays until the domain is taken down.
    Ticket,
    /// A lease of the domain's table. Any processor may read it and end it.
    Lease,
}

/// The domains of a script, the names in use in each, and the sets of cookies, as a line finds them. A domain and a set
/// go by their places, numbers that are the scene's own. Contracts see the four answers as functions, all of one moment.
pub trait Scene {
    ghost scene: { Self → SceneView };

    /// The place of the domain of this name, or `None` where no domain has it.
    fn place_of(&self, domain: &[u8]) -> Option<usize>
        ensures { result ≡ (scene self.now).place_of domain.now };

    /// The place of the set of this name, or `None` where no set has it.
    fn set_of(&self, set: &[u8]) -> Option<usize>
        ensures { result ≡ (scene self.now).set_of set.now };

    /// How many processors the domain at this place has.
    fn processors_of(&self, place: usize) -> u64
        requires { IsPlace (scene self.now) place }
        ensures { result ≡ (scene self.now).processors_of place };

    /// What has this name in the domain at this place, or `None` where the name is not in use there.
    fn kind_of(&self, place: usize, name: &Name) -> Option<Kind>
        requires { IsPlace (scene self.now) place }
        ensures { result ≡ (scene self.now).kind_of place name.now };
}
