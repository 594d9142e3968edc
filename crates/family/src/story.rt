// The story of a parent and its child on a page table, told one step to a line.
ghost use Rattle.std.specs.Prelude.{◌≡◌, Result};
ghost use Rattle.paging.specs.declared.page.Fault.{Fault};
ghost use Rattle.paging.specs.Effects.{Puts, Releases, Reserves};
ghost use Rattle.family.specs.People.{number};

use paging::{Entry, Fault, MAX_FRAME, PROCESSES, PageTable};
use std::{fmt, io};

// Who acts: the parent, its child, or a stranger that is no process of any table.
#[derive(Clone, Copy)]
enum Person {
    Parent,
    Child,
    Stranger,
}

impl Person {
    // Not a From: `who.process()` says which number it is.
    fn process(self) -> u32
        ensures { result ≡ number self }
    {
        match self {
            Person::Parent => 0,
            Person::Child => 1,
            Person::Stranger => PROCESSES,
        }
    }
}

impl fmt::Display for Person {
    fn fmt<W: fmt::Write>(&self, f: &mut fmt::Formatter<W>) -> fmt::Result {
        f.write_str(match self {
            Person::Parent => "parent",
            Person::Child => "child",
            Person::Stranger => "stranger",
        })
    }
}

// A table that the story happens to, and where it is told.
#[derive(Drop)]
pub struct Story<'a, P: PageTable> {
    rt: &'a HostRuntime,
    table: P,
}

impl<'a, P: PageTable> Story<'a, P> {
    pub fn new(rt: &'a HostRuntime, table: P) -> Self
        ensures { result.table ≡ table }
    {
        Story { rt, table }
    }

    // The whole story.
    pub fn tell(&mut self) -> io::Result<()> {
        self.parent_alone()?;
        self.refusals()?;
        self.child_shares()?;
        self.both_leave()
    }

    // What is left of the story where nothing fits.
    pub fn tell_nothing_fits(&mut self) -> io::Result<()> {
        self.reserve(Person::Parent, 10, 4)?;
        self.put(Person::Parent, 11, Entry::present(3, true, true))?;
        self.look(Person::Parent, 11)
    }

    // The parent maps two frames into the four pages that it reserved.
    fn parent_alone(&mut self) -> io::Result<()> {
        println!(self.rt; "The parent alone:")?;
        self.reserve(Person::Parent, 10, 4)?;
        self.put(Person::Parent, 11, Entry::present(3, true, true))?;
        self.put(Person::Parent, 12, Entry::present(4, false, true))?;
        self.look(Person::Parent, 11)?;
        self.look(Person::Parent, 12)?;
        self.look(Person::Parent, 13)?;
        self.put(Person::Parent, 12, Entry::Absent)?;
        self.look(Person::Parent, 12)?;
        self.put(Person::Parent, 12, Entry::present(5, false, true))
    }

    // What a table refuses, and the page that it names.
    fn refusals(&mut self) -> io::Result<()> {
        println!(self.rt; "What is refused:")?;
        self.put(Person::Parent, 14, Entry::present(3, true, true))?;
        self.put(
            Person::Parent,
            13,
            Entry::present(MAX_FRAME + 1, true, true),
        )?;
        self.put(Person::Stranger, 11, Entry::present(3, true, true))?;
        self.reserve(Person::Parent, 5, 0)?;
        self.reserve(Person::Parent, P::PAGES.saturating_sub(1), 2)?;
        self.reserve(Person::Parent, u32::MAX, u32::MAX)?;
        self.reserve(Person::Stranger, 10, 4)?;
        self.look(Person::Parent, 11)
    }

    // The child comes to share the parent's frame, and neither may write it.
    fn child_shares(&mut self) -> io::Result<()> {
        println!(self.rt; "The child shares a frame:")?;
        self.look(Person::Child, 11)?;
        self.reserve(Person::Child, 10, 4)?;
        self.put(Person::Child, 11, Entry::present(3, false, false))?;
        self.put(Person::Parent, 11, Entry::present(3, false, true))?;
        self.look(Person::Parent, 11)?;
        self.look(Person::Child, 11)
    }

    // The parent goes, and the child's entry stays; then the child goes.
    fn both_leave(&mut self) -> io::Result<()> {
        println!(self.rt; "Both leave:")?;
        self.release(Person::Parent, 10, u32::MAX)?;
        self.look(Person::Parent, 11)?;
        self.look(Person::Child, 11)?;
        self.reserve(Person::Parent, 11, 1)?;
        self.look(Person::Parent, 11)?;
        self.release(Person::Parent, 0, P::PAGES)?;
        self.release(Person::Child, 0, P::PAGES)?;
        self.look(Person::Child, 11)
    }

    // The steps pass the numbers on as the table takes them.
    fn reserve(&mut self, who: Person, first: u32, count: u32) -> io::Result<()>
        ensures { (r : Result (Unit {0}) Fault) × Reserves (P.PageTable.meaning self.old.table) (number who) first count r (P.PageTable.meaning self.new.table) }
    {
        let answer = self.table.reserve(who.process(), first, count);
        print!(self.rt; "{who} reserves {count} from page {first}: ")?;
        self.outcome(answer)
    }

    fn release(&mut self, who: Person, first: u32, count: u32) -> io::Result<()>
        ensures { Releases (P.PageTable.meaning self.old.table) (number who) first count (P.PageTable.meaning self.new.table) }
    {
        self.table.release(who.process(), first, count);
        println!(self.rt; "{who} releases {count} from page {first}: done")
    }

    fn look(&self, who: Person, page: u32) -> io::Result<()> {
        let found = self.table.look(who.process(), page);
        println!(self.rt; "{who} looks at page {page}: {found}")
    }

    fn put(&mut self, who: Person, page: u32, entry: Entry) -> io::Result<()>
        ensures { (r : Result (Unit {0}) Fault) × Puts (P.PageTable.meaning self.old.table) (number who) page entry r (P.PageTable.meaning self.new.table) }
    {
        let answer = self.table.put(who.process(), page, entry);
        print!(self.rt; "{who} puts {entry} at page {page}: ")?;
        self.outcome(answer)
    }

    fn outcome(&self, answer: Result<(), Fault>) -> io::Result<()> {
        match answer {
            Ok(()) => println!(self.rt; "done"),
            Err(fault) => println!(self.rt; "refused at {fault}"),
        }
    }
}
