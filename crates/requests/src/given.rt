//! What the words of a line name.
ghost use Rattle.std.specs.Prelude.{◌≡◌, pos, true, None, Some, MatchResult, unwrap_or};
ghost use Rattle.lines.specs.Lines.{number_of};
ghost use Rattle.requests.specs.Numbers.{id_of, priority_of, word32_of};
ghost use Rattle.requests.specs.Faults.{name_fault, number_fault, kind_fault, pairs_fault, texts};
ghost use Rattle.requests.specs.Scenes.{IsPlace};
ghost use Rattle.requests.specs.Requests.{PairsName, request_of};
ghost use Rattle.requests.specs.Given.{IsRead, needs_domain};

use crate::command::{Argument, Command};
use crate::fault::Fault;
use crate::handler_answers::{Answer, HandlerAnswers};
use crate::members::Members;
use crate::numbers::{id, priority, word32};
use crate::pairs::answers;
use crate::request::{Act, Request};
use crate::scene::{Kind, Scene};
use lines::{Name, is_name, number};

/// What the words of a line name. Each argument fills one field, all pairs fill one, and so do all members.
#[derive(Clone, Copy)]
pub struct Given {
    /// The place of the domain.
    pub domain: usize,
    pub processor: u64,
    pub name: Name,
    pub number: u64,
    /// The id of a handler.
    pub id: u64,
    pub priority: i32,
    pub key: u32,
    pub plug: u32,
    pub answers: HandlerAnswers,
    /// The place of the set.
    pub set: usize,
    pub members: Members,
}

impl Given {
    /// What is given before any word was read. A field that no word fills is in no request.
    pub fn nothing() -> Given
        ensures { result.domain ≡ 0 }
    {
        Given {
            domain: 0,
            processor: 0,
            name: Name::new(b"0").unwrap(),
            number: 0,
            id: 0,
            priority: 0,
            key: 0,
            plug: 0,
            answers: HandlerAnswers {
                by_id: [Answer::Done; 16],
            },
            set: 0,
            members: Members::new(),
        }
    }

    /// What is given with one word more, which should be this argument.
    #[tactic(auto, unfolding(crate::specs::Faults::argument_fault))]
    pub fn with<S: Scene>(self, argument: Argument, word: &[u8], scene: &S) -> Result<Given, Fault>
        requires { needs_domain argument ≡ true → IsPlace (S.scene scene.now) self.domain }
        ensures { IsRead (S.scene scene.now) self argument word.now result }
    {
        match argument {
            Argument::NewDomain => self.with_new_domain(word, scene),
            Argument::AnyNumber => self.with_number(word),
            Argument::ADomain => self.with_domain(word, scene),
            Argument::AProcessor => self.with_processor(word, scene),
            Argument::NewName => self.with_new_name(word, scene),
            Argument::ALook => self.with_name_of(Kind::Look, word, scene),
            Argument::AReading => self.with_name_of(Kind::Reading, word, scene),
            Argument::AHeld => self.with_name_of(Kind::Held, word, scene),
            Argument::ATicket => self.with_name_of(Kind::Ticket, word, scene),
            Argument::AJob => self.with_job(word),
            Argument::ALease => self.with_name_of(Kind::Lease, word, scene),
            Argument::AnId => self.with_id(word),
            Argument::APriority => self.with_priority(word),
            Argument::AKey => self.with_key(word),
            Argument::APlug => self.with_plug(word),
            Argument::NewSet => self.with_new_set(word, scene),
            Argument::ASet => self.with_set(word, scene),
        }
    }

    #[tactic(auto, unfolding(crate::specs::Faults::argument_fault))]
    fn with_new_domain<S: Scene>(self, word: &[u8], scene: &S) -> Result<Given, Fault>
        ensures { IsRead (S.scene scene.now) self Argument.NewDomain word.now result }
    {
        let name = Name::new(word).ok_or(Fault::Name)?;
        match scene.place_of(word) {
            Some(_) => Err(Fault::Taken),
            None => Ok(Given { name, ..self }),
        }
    }

    fn with_number(self, word: &[u8]) -> Result<Given, Fault>
        ensures { let found = number_of word.now in MatchResult result
            (λ g. (number_fault found ≡ None) × (g ≡ record self { number = unwrap_or found 0 }))
            (λ f. number_fault found ≡ Some f) }
    {
        let number = number(word).ok_or(Fault::Number)?;
        Ok(Given { number, ..self })
    }

    #[tactic(auto, unfolding(crate::specs::Faults::argument_fault))]
    fn with_domain<S: Scene>(self, word: &[u8], scene: &S) -> Result<Given, Fault>
        ensures { IsRead (S.scene scene.now) self Argument.ADomain word.now result }
    {
        if !is_name(word) {
            return Err(Fault::Name);
        }
        let domain = scene.place_of(word).ok_or(Fault::Domain)?;
        Ok(Given { domain, ..self })
    }

    #[tactic(auto, unfolding(crate::specs::Faults::argument_fault))]
    fn with_processor<S: Scene>(self, word: &[u8], scene: &S) -> Result<Given, Fault>
        requires { IsPlace (S.scene scene.now) self.domain }
        ensures { IsRead (S.scene scene.now) self Argument.AProcessor word.now result }
    {
        let processor = number(word).ok_or(Fault::Number)?;
        if processor >= scene.processors_of(self.domain) {
            return Err(Fault::Processor);
        }
        Ok(Given { processor, ..self })
    }

    #[tactic(auto, unfolding(crate::specs::Faults::argument_fault))]
    fn with_new_name<S: Scene>(self, word: &[u8], scene: &S) -> Result<Given, Fault>
        requires { IsPlace (S.scene scene.now) self.domain }
        ensures { IsRead (S.scene scene.now) self Argument.NewName word.now result }
    {
        let name = Name::new(word).ok_or(Fault::Name)?;
        match scene.kind_of(self.domain, &name) {
            Some(_) => Err(Fault::Taken),
            None => Ok(Given { name, ..self }),
        }
    }

    /// What is given with the name of a thing of this kind.
    fn with_name_of<S: Scene>(self, kind: Kind, word: &[u8], scene: &S) -> Result<Given, Fault>
        requires { IsPlace (S.scene scene.now) self.domain }
        ensures { let found = (S.scene scene.now).kind_of self.domain word.now in MatchResult result
            (λ g. (kind_fault kind word.now found ≡ None) × (g ≡ record self { name = word.now }))
            (λ f. kind_fault kind word.now found ≡ Some f) }
    {
        let name = Name::new(word).ok_or(Fault::Name)?;
        match scene.kind_of(self.domain, &name) {
            Some(found) if found == kind => Ok(Given { name, ..self }),
            _ => Err(Fault::Name),
        }
    }

    fn with_job(self, word: &[u8]) -> Result<Given, Fault>
        ensures { MatchResult result
            (λ g. (name_fault word.now ≡ None) × (g ≡ record self { name = word.now }))
            (λ f. name_fault word.now ≡ Some f) }
    {
        let name = Name::new(word).ok_or(Fault::Name)?;
        Ok(Given { name, ..self })
    }

    fn with_id(self, word: &[u8]) -> Result<Given, Fault>
        ensures { let found = id_of word.now in MatchResult result
            (λ g. (number_fault found ≡ None) × (g ≡ record self { id = unwrap_or found 0 }))
            (λ f. number_fault found ≡ Some f) }
    {
        let id = id(word).ok_or(Fault::Number)?;
        Ok(Given { id, ..self })
    }

    fn with_priority(self, word: &[u8]) -> Result<Given, Fault>
        ensures { let found = priority_of word.now in MatchResult result
            (λ g. (number_fault found ≡ None) × (g ≡ record self { priority = unwrap_or found (pos 0) }))
            (λ f. number_fault found ≡ Some f) }
    {
        let priority = priority(word).ok_or(Fault::Number)?;
        Ok(Given { priority, ..self })
    }

    fn with_key(self, word: &[u8]) -> Result<Given, Fault>
        ensures { let found = word32_of word.now in MatchResult result
            (λ g. (number_fault found ≡ None) × (g ≡ record self { key = unwrap_or found 0 }))
            (λ f. number_fault found ≡ Some f) }
    {
        let key = word32(word).ok_or(Fault::Number)?;
        Ok(Given { key, ..self })
    }

    fn with_plug(self, word: &[u8]) -> Result<Given, Fault>
        ensures { let found = word32_of word.now in MatchResult result
            (λ g. (number_fault found ≡ None) × (g ≡ record self { plug = unwrap_or found 0 }))
            (λ f. number_fault found ≡ Some f) }
    {
        let plug = word32(word).ok_or(Fault::Number)?;
        Ok(Given { plug, ..self })
    }

    #[tactic(auto, unfolding(crate::specs::Faults::argument_fault))]
    fn with_new_set<S: Scene>(self, word: &[u8], scene: &S) -> Result<Given, Fault>
        ensures { IsRead (S.scene scene.now) self Argument.NewSet word.now result }
    {
        let name = Name::new(word).ok_or(Fault::Name)?;
        match scene.set_of(word) {
            Some(_) => Err(Fault::Taken),
            None => Ok(Given { name, ..self }),
        }
    }

    #[tactic(auto, unfolding(crate::specs::Faults::argument_fault))]
    fn with_set<S: Scene>(self, word: &[u8], scene: &S) -> Result<Given, Fault>
        ensures { IsRead (S.scene scene.now) self Argument.ASet word.now result }
    {
        if !is_name(word) {
            return Err(Fault::Name);
        }
        let set = scene.set_of(word).ok_or(Fault::Name)?;
        Ok(Given { set, ..self })
    }

    /// What is given with what the pairs say.
    pub fn with_pairs(self, words: &[&[u8]]) -> Result<Given, Fault>
        ensures { MatchResult result
            (λ g. (pairs_fault (texts words.now) ≡ None) × (g ≡ record self { answers = g.answers }) × PairsName g (texts words.now))
            (λ f. pairs_fault (texts words.now) ≡ Some f) }
    {
        let answers = answers(words).ok_or(Fault::Pair)?;
        Ok(Given { answers, ..self })
    }

    /// What the command asks for.
    pub fn asked_by(self, command: Command) -> Request
        ensures { result ≡ request_of command self }
    {
        let Given {
            domain,
            processor,
            name,
            number,
            id,
            priority,
            key,
            plug,
            answers,
            set,
            members,
        } = self;
        let act = match command {
            Command::Domain => {
                return Request::Domain {
                    name,
                    processors: number,
                };
            }
            Command::Look => Act::Look {
                processor,
                look: name,
            },
            Command::Enter => Act::Enter {
                processor,
                look: name,
            },
            Command::Lock => Act::Lock {
                processor,
                section: name,
            },
            Command::Unlock => Act::Unlock { section: name },
            Command::Down => Act::Down {
                processor,
                section: name,
            },
            Command::Up => Act::Up {
                processor,
                section: name,
            },
            Command::Park => Act::Park { section: name },
            Command::Unpark => Act::Unpark,
            Command::Get => Act::Get { processor },
            Command::Ask => Act::Ask { processor },
            Command::Poll => Act::Poll {
                processor,
                cookie: number,
            },
            Command::Start => Act::Start { processor },
            Command::Advance => Act::Advance { processor },
            Command::Step => Act::Step { processor },
            Command::Call => Act::Call {
                processor,
                job: name,
            },
            Command::Run => Act::Run { processor },
            Command::Batch => Act::Batch { processor },
            Command::Finish => Act::Finish { processor },
            Command::Segs => Act::Segs { processor },
            Command::Barrier => Act::Barrier {
                processor,
                ticket: name,
            },
            Command::BarrierPoll => Act::BarrierPoll {
                processor,
                ticket: name,
            },
            Command::Register => Act::Register {
                processor,
                id,
                priority,
            },
            Command::Unregister => Act::Unregister { processor, id },
            Command::Chain => Act::Chain { processor },
            Command::Notify => Act::Notify { processor, answers },
            Command::Install => Act::Install {
                processor,
                key,
                plug,
            },
            Command::Remove => Act::Remove { processor, key },
            Command::Lookup => Act::Lookup { processor, key },
            Command::Lease => Act::Lease {
                processor,
                lease: name,
            },
            Command::Read => Act::Read {
                processor,
                lease: name,
                key,
            },
            Command::Release => Act::Release {
                processor,
                lease: name,
            },
            Command::Set => return Request::Set { name, members },
            Command::SetPoll => return Request::SetPoll { set },
            Command::State => Act::State,
            Command::Cleanup => return Request::Cleanup { domain },
        };
        Request::On { domain, act }
    }
}
