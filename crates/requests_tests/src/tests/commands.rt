//! The table of commands.
use lines::words;
use requests::Command;
use std::test::Fail;

/// The table as the help of the command line shows it.
const HELP: &str = "
  domain NAME N         makes a domain of N processors (1 to 256)
  look NAME P R         reads the current index on processor P, a look called R
  enter NAME P R        begins a section of that index on processor P, called R
  lock NAME P S         a look and a section at once; the section is called S
  unlock NAME S         ends a section of `lock` or `enter` where it began
  down NAME P S         begins a section on processor P that any may end
  up NAME P S           ends a section of `down` on processor P
  park NAME S           puts a section of `down` on the domain's desk
  unpark NAME           takes what lies on the domain's desk
  get NAME P            gives a cookie
  ask NAME P            gives a cookie, and asks for its grace period
  poll NAME P C         tells whether a grace period has gone by since cookie C
  start NAME P          starts a grace period
  advance NAME P        lets the engine work until it has an answer
  step NAME P           lets the engine make one step
  call NAME P J         queues job J on processor P, to run after a grace period
  run NAME P            runs the first ready jobs of processor P, up to 8
  batch NAME P          takes those jobs out as a batch, and runs none yet
  finish NAME P         runs the jobs of processor P's batch, and ends it
  segs NAME P           shows how many jobs of processor P wait, and for what
  barrier NAME P B      gives a ticket B for the jobs that are queued by now
  barrier-poll NAME P B tells whether all jobs of ticket B have run
  register NAME P I N   registers handler I on the chain, with priority N
  unregister NAME P I   takes handler I off the chain
  chain NAME P          shows the handlers of the chain, as they are called
  notify NAME P I:W..   calls the chain; I answers W: done, ok, stop or bad
  install NAME P K N    gives key K of the table the plug N
  remove NAME P K       takes key K out of the table
  lookup NAME P K       finds the plug of key K
  lease NAME P L        leases the version of the table; the lease is called L
  read NAME P L K       finds the plug of key K in the version of lease L
  release NAME P L      ends lease L on processor P
  set K NAME P..        asks in each domain, on its processor; K has the cookies
  set-poll K            tells whether all cookies of set K are done
  state NAME            shows where the domain stands
  cleanup NAME          takes the domain down, where nothing of it is in use";

#[test]
fn rows_make_the_help(rt: HostRuntime) -> Result<(), Fail> {
    let mut text = String::new(rt.alloc());
    for command in Command::ALL {
        let row = command.row();
        write!(text, "\n  {:<22}{}", row.form, row.does)?;
    }
    assert_eq!(rt; text.as_str(), HELP);
    Ok(())
}

/// Would catch a word that is another command's, or one that is none and counts.
#[test]
fn words_of_commands(rt: HostRuntime) -> Result<(), Fail> {
    let table = "
        domain           Some(Domain)
        state            Some(State)
        look             Some(Look)
        enter            Some(Enter)
        lock             Some(Lock)
        unlock           Some(Unlock)
        down             Some(Down)
        up               Some(Up)
        park             Some(Park)
        unpark           Some(Unpark)
        ask              Some(Ask)
        get              Some(Get)
        poll             Some(Poll)
        start            Some(Start)
        advance          Some(Advance)
        step             Some(Step)
        call             Some(Call)
        run              Some(Run)
        batch            Some(Batch)
        finish           Some(Finish)
        segs             Some(Segs)
        barrier          Some(Barrier)
        barrier-poll     Some(BarrierPoll)
        register         Some(Register)
        unregister       Some(Unregister)
        chain            Some(Chain)
        notify           Some(Notify)
        install          Some(Install)
        remove           Some(Remove)
        lookup           Some(Lookup)
        lease            Some(Lease)
        read             Some(Read)
        release          Some(Release)
        set              Some(Set)
        set-poll         Some(SetPoll)
        cleanup          Some(Cleanup)
        loc              None
        locks            None
        ups              None
        seg              None
        calls            None
        barriers         None
        barrier-         None
        barrierpoll      None
        barrier_poll     None
        clean            None
        regist           None
        registered       None
        chains           None
        notifying        None
        lookups          None
        leases           None
        released         None
        sets             None
        set-             None
        setpoll          None
        set_poll         None
        LOCK             None
        frob             None";
    for row in table.as_bytes().split(|byte| *byte == b'\n') {
        let words = words(rt.alloc(), row)?;
        if let [word, wanted] = words.as_slice() {
            let found = format!(in rt.alloc(); "{:?}", Command::of_word(word))?;
            assert_eq!(rt; found.as_bytes(), *wanted);
        }
    }
    assert_eq!(rt; Command::of_word(b""), None);
    Ok(())
}
