//! The table of plug-ins, and leases of its versions under names.
ghost use Rattle.std.specs.Prelude.{◌≡◌, ◌<◌, [], ◌∷◌, IfOk, OnErr};
ghost use Rattle.requests.specs.Requests.{IsActFor};
ghost use Rattle.session.specs.States.{scene_alone, IsSameHome};
ghost use Rattle.session.specs.Scripts.{Does, plug_told, cause_of_installing, cause_of_removing};

use super::Entry;
use lines::Name;
use names::NamedToken;
use plugs::{InstallRefusal, RemoveRefusal};
use requests::{Act, Cause, Command, Reply};
use sections::Exhausted;
use std::alloc::{AllocError, Allocator};

/// Why a key got no plug.
fn cause_of(why: InstallRefusal) -> Cause
    ensures { result ≡ cause_of_installing why }
{
    match why {
        InstallRefusal::Full => Cause::Full,
        InstallRefusal::NoSlot => Cause::NoSlot,
        InstallRefusal::Memory => Cause::Memory,
    }
}

/// Why a key keeps its plug.
fn cause_of_keeping(why: RemoveRefusal) -> Cause
    ensures { result ≡ cause_of_removing why }
{
    match why {
        RemoveRefusal::NotThere => Cause::NotThere,
        RemoveRefusal::NoSlot => Cause::NoSlot,
    }
}

/// What is told of a key.
fn told(plug: Option<u32>) -> Reply
    ensures { result ≡ plug_told plug }
{
    match plug {
        None => Reply::NoPlug,
        Some(plug) => Reply::Plug(plug),
    }
}

impl<'a, A: Allocator> Entry<&'a A> {
    /// Gives a key this plug; refused for the first cause that stands against it.
    pub(super) fn install(&mut self, processor: u64, key: u32, plug: u32) -> Reply
        requires { processor < self.old.state.course.standing.processors }
        ensures limits { self.new.limits ≡ self.old.limits }
        ensures home { IsSameHome self.old self.new }
        ensures name { self.new.state.name ≡ self.old.state.name }
        ensures does { Does self.old.limits (Act.Install processor key plug) self.old.state result self.new.state }
    {
        match self.domain.install(processor, &mut self.board, key, plug) {
            Ok(version) => Reply::Installed(version),
            Err(why) => Reply::Refused(Command::Install, cause_of(why)),
        }
    }

    /// Takes the plug of a key away; refused as `install` is.
    pub(super) fn remove(&mut self, processor: u64, key: u32) -> Reply
        requires { processor < self.old.state.course.standing.processors }
        ensures limits { self.new.limits ≡ self.old.limits }
        ensures home { IsSameHome self.old self.new }
        ensures name { self.new.state.name ≡ self.old.state.name }
        ensures does { Does self.old.limits (Act.Remove processor key) self.old.state result self.new.state }
    {
        match self.domain.remove(processor, &mut self.board, key) {
            Ok(version) => Reply::Removed(version),
            Err(why) => Reply::Refused(Command::Remove, cause_of_keeping(why)),
        }
    }

    /// The plug of a key; refused where no section may begin on the processor.
    pub(super) fn lookup(&mut self, processor: u64, key: u32) -> Reply
        requires { processor < self.old.state.course.standing.processors }
        ensures limits { self.new.limits ≡ self.old.limits }
        ensures home { IsSameHome self.old self.new }
        ensures name { self.new.state.name ≡ self.old.state.name }
        ensures does { Does self.old.limits (Act.Lookup processor key) self.old.state result self.new.state }
    {
        match self.domain.lookup(processor, &self.board, key) {
            Ok(plug) => told(plug),
            Err(Exhausted) => Reply::Refused(Command::Lookup, Cause::Exhausted),
        }
    }

    /// Leases the version that is current, and gives the lease the name; refused as `lookup` is.
    pub(super) fn lease(&mut self, processor: u64, name: Name) -> Result<Reply, AllocError>
        requires { IsActFor (scene_alone self.old.state) 0 (Act.Lease processor name) }
        ensures limits { self.new.limits ≡ self.old.limits }
        ensures home { IsSameHome self.old self.new }
        ensures name { self.new.state.name ≡ self.old.state.name }
        ensures does { IfOk result (λ r. Does self.old.limits (Act.Lease processor name) self.old.state r self.new.state) }
        ensures err { OnErr result (self.new ≡ self.old) }
    {
        self.names.reserve()?;
        match self.domain.lease(processor, &self.board) {
            Ok(lease) => {
                let index = lease.index();
                let version = lease.version();
                self.names.insert(name, NamedToken::Lease(lease));
                Ok(Reply::Leased { index, version })
            }
            Err(Exhausted) => Ok(Reply::Refused(Command::Lease, Cause::Exhausted)),
        }
    }

    /// The plug of a key in the version of a lease. The lease is taken out and laid back: its own place would do, but the
    /// map does not say so, hence the room.
    pub(super) fn read(&mut self, processor: u64, name: Name, key: u32) -> Result<Reply, AllocError>
        requires { IsActFor (scene_alone self.old.state) 0 (Act.Read processor name key) }
        ensures limits { self.new.limits ≡ self.old.limits }
        ensures home { IsSameHome self.old self.new }
        ensures name { self.new.state.name ≡ self.old.state.name }
        ensures does { IfOk result (λ r. Does self.old.limits (Act.Read processor name key) self.old.state r self.new.state) }
        ensures err { OnErr result (self.new ≡ self.old) }
    {
        self.names.reserve()?;
        let mut lease = self.names.take_lease(&name);
        let plug = self.domain.read(processor, &mut lease, key);
        self.names.insert(name, NamedToken::Lease(lease));
        Ok(told(plug))
    }

    /// Ends the section of a lease on a processor. Its name is then free.
    pub(super) fn release(&mut self, processor: u64, name: Name) -> Reply
        requires { IsActFor (scene_alone self.old.state) 0 (Act.Release processor name) }
        ensures limits { self.new.limits ≡ self.old.limits }
        ensures home { IsSameHome self.old self.new }
        ensures name { self.new.state.name ≡ self.old.state.name }
        ensures does { Does self.old.limits (Act.Release processor name) self.old.state result self.new.state }
    {
        let lease = self.names.take_lease(&name);
        self.domain.release(processor, lease);
        Reply::Released
    }
}
