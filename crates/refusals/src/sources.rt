//! Calls of sources, which note what is read, and of footprints.

use crate::opening::{GRANTS, apply, are_same_objects, everything, has_all, state_after};
use rls_agreement::agrees_on;
use rls_session::rls_core::rls_guard::rls_catalog::rls_value::{Name, Object, Refusal, Row, Value};
use rls_session::rls_core::rls_guard::rls_catalog::{Catalog, Change, Delta, RoleDef};
use rls_session::rls_core::rls_guard::rls_source::{
    Footprint, Overlay, Plain, Reading, Recording, RowSource, StatementSource,
};
use scenario::{Scenario, after, both, play, taken};
use std::alloc::Global;

/// A role, a table, a key of it, and what is read of them.
#[derive(Drop)]
struct Asked {
    role: Name,
    table: Name,
    key: Row,
    read: Footprint,
}

impl Asked {
    fn new(alloc: Global) -> Result<Asked, Refusal> {
        let names = both(Name::new(alloc, "a"), Name::new(alloc, "t"));
        let objects = both(key(alloc), everything(alloc, &["a"]));
        let ((role, table), (key, read)) = both(names, objects)?;
        Ok(Asked {
            role,
            table,
            key,
            read,
        })
    }
}

fn key(alloc: Global) -> Result<Row, Refusal> {
    Ok(Row::new(vec![in alloc; Value::Int(2)]?)?)
}

/// What is asked for, a state, and changes that are put on it.
#[derive(Drop)]
struct Place {
    asked: Asked,
    changes: Delta,
    state: Catalog,
}

impl Place {
    fn new(alloc: Global) -> Result<Place, Refusal> {
        let changed = both(changes(alloc), state_after(alloc, &GRANTS));
        let (asked, (changes, state)) = both(Asked::new(alloc), changed)?;
        Ok(Place {
            asked,
            changes,
            state,
        })
    }
}

/// A role more.
fn changes(alloc: Global) -> Result<Delta, Refusal> {
    let mut changes = Delta::new(alloc);
    let put = put_role(alloc, &mut changes);
    after(changes, put)
}

fn put_role(alloc: Global, changes: &mut Delta) -> Result<(), Refusal> {
    changes.push(Change::Role(Name::new(alloc, "c")?, RoleDef::known(None)))?;
    Ok(())
}

/// What is asked of a source.
#[derive(Clone, Copy)]
enum Ask {
    Role,
    Members,
    Table,
    Grants,
    Policies,
    Scan,
    ByKey,
    /// To mark one object as read, or those of a footprint.
    Mark,
    MarkAll,
}

/// Each look-up, as its trait names it.
const ASKS: [(&str, Ask); 9] = [
    ("Reading::role", Ask::Role),
    ("Reading::members", Ask::Members),
    ("Reading::table", Ask::Table),
    ("Reading::grants", Ask::Grants),
    ("Reading::policies", Ask::Policies),
    ("Reading::scan", Ask::Scan),
    ("Reading::by_key", Ask::ByKey),
    ("RowSource::mark", Ask::Mark),
    ("StatementSource::mark_all", Ask::MarkAll),
];

/// A source that notes reads, and what is asked of it.
#[derive(Drop)]
struct Looking<'c> {
    source: Recording<Plain<'c>>,
    place: &'c Place,
    ask: Ask,
    /// What is to be marked.
    rows: [Object; 1],
}

impl<'c> Looking<'c> {
    fn new(alloc: Global, place: &'c Place, ask: Ask) -> Result<Looking<'c>, Refusal> {
        Ok(Looking {
            source: Recording::new(alloc, Plain::new(&place.state)),
            place,
            ask,
            rows: [Object::Rows(place.asked.table.copy()?)],
        })
    }
}

impl<'c> Scenario for Looking<'c> {
    type Answer = bool;

    fn call(&mut self, alloc: Global) -> Result<bool, Refusal> {
        let asked = &self.place.asked;
        let source = &mut self.source;
        Ok(match self.ask {
            Ask::Role => source.role(alloc, &asked.role)?.is_some(),
            Ask::Members => source.members(alloc, &asked.role)?.len() == 0,
            Ask::Table => source.table(alloc, &asked.table)?.is_some(),
            Ask::Grants => source.grants(alloc, &asked.table)?.len() > 4,
            Ask::Policies => source.policies(alloc, &asked.table)?.len() == 0,
            Ask::Scan => source.scan(alloc, &asked.table)?.len() == 2,
            Ask::ByKey => source.by_key(alloc, &asked.table, &asked.key)?.len() == 1,
            Ask::Mark => is_done(source.mark(alloc, &self.rows)?),
            Ask::MarkAll => is_done(source.mark_all(alloc, &asked.read)?),
        })
    }

    /// It may have noted what it looked for.
    fn is_like(&self, twin: &Looking<'c>, _alloc: Global) -> Result<bool, Refusal> {
        Ok(
            has_all(&self.source.footprint, &twin.source.footprint)
                && self.source.footprint.len() <= self.place.asked.read.len(),
        )
    }

    fn is_answer(&self, answer: &bool, _alloc: Global) -> Result<bool, Refusal> {
        Ok(*answer)
    }
}

/// Whether a call that gives nothing has come to its end.
fn is_done(_: ()) -> bool {
    true
}

/// A source behind changes.
#[derive(Drop)]
struct NewOverlay<'c> {
    place: &'c Place,
}

impl<'c> Scenario for NewOverlay<'c> {
    /// How many memberships a role has behind them.
    type Answer = usize;

    fn call(&mut self, alloc: Global) -> Result<usize, Refusal> {
        let mut room = None;
        let members = members_behind(alloc, self.place, &mut room);
        drop(room);
        members
    }

    fn is_answer(&self, answer: &usize, _alloc: Global) -> Result<bool, Refusal> {
        Ok(*answer == 0)
    }
}

/// How many memberships a role has behind the changes, where there is room for the state behind them.
fn members_behind(
    alloc: Global,
    place: &Place,
    room: &mut Option<Catalog>,
) -> Result<usize, Refusal> {
    let below = Plain::new(&place.state);
    let overlay = Overlay::new(alloc, below, &place.changes, room)?;
    let members = overlay.catalog().members(&place.asked.role).len();
    drop(overlay);
    Ok(members)
}

/// Two states that differ in a row, and all that they have.
#[derive(Drop)]
struct Agreeing {
    left: Catalog,
    right: Catalog,
    all: Footprint,
}

impl Agreeing {
    fn new(alloc: Global) -> Result<Agreeing, Refusal> {
        let states = both(state_after(alloc, &GRANTS), updated(alloc));
        let ((left, right), all) = both(states, everything(alloc, &["a", "b", "t"]))?;
        Ok(Agreeing { left, right, all })
    }
}

/// The state with another value in a row.
fn updated(alloc: Global) -> Result<Catalog, Refusal> {
    let mut state = state_after(alloc, &GRANTS)?;
    let applied = apply(alloc, &mut state, 9, "UPDATE t SET n = 0 WHERE k = 2");
    after(state, applied)
}

impl Scenario for Agreeing {
    type Answer = bool;

    fn call(&mut self, alloc: Global) -> Result<bool, Refusal> {
        let left = &mut Plain::new(&self.left);
        let right = &mut Plain::new(&self.right);
        Ok(agrees_on(alloc, left, right, &self.all)?)
    }

    fn is_answer(&self, answer: &bool, _alloc: Global) -> Result<bool, Refusal> {
        Ok(!*answer)
    }
}

/// Objects that were read, and others.
#[derive(Drop)]
struct Noted {
    noted: Footprint,
    others: Footprint,
    listed: Vec<Object>,
}

impl Noted {
    fn new(alloc: Global) -> Result<Noted, Refusal> {
        let notes = both(
            everything(alloc, &["a", "t"]),
            everything(alloc, &["b", "t"]),
        );
        let ((noted, others), listed) = both(notes, listed(alloc))?;
        Ok(Noted {
            noted,
            others,
            listed,
        })
    }

    /// Notes the objects that are listed.
    fn note_listed(&mut self, alloc: Global) -> Result<(), Refusal> {
        Ok(self.noted.note_all(alloc, self.listed.as_slice())?)
    }

    fn is_same(&self, other: &Noted) -> bool {
        are_same_objects(&self.noted, &other.noted) && are_same_objects(&self.others, &other.others)
    }
}

/// The others, as a list.
fn listed(alloc: Global) -> Result<Vec<Object>, Refusal> {
    let others = everything(alloc, &["b", "t"])?;
    let listed = others.to_vec(alloc);
    drop(others);
    taken(listed)
}

/// Whether each object of the first is one of the others.
fn are_of(first: &Footprint, one: &Footprint, other: &Footprint) -> bool {
    for object in first.iter() {
        if !one.contains(object) && !other.contains(object) {
            return false;
        }
    }
    true
}

#[derive(Drop)]
struct Noting {
    noted: Noted,
}

impl Noting {
    fn new(alloc: Global) -> Result<Noting, Refusal> {
        Ok(Noting {
            noted: Noted::new(alloc)?,
        })
    }
}

impl Scenario for Noting {
    type Answer = ();

    fn call(&mut self, alloc: Global) -> Result<(), Refusal> {
        self.noted.note_listed(alloc)
    }

    /// It may have noted some of them.
    fn is_like(&self, twin: &Noting, _alloc: Global) -> Result<bool, Refusal> {
        let (noted, twin) = (&self.noted, &twin.noted);
        Ok(
            has_all(&noted.noted, &twin.noted)
                && are_same_objects(&noted.others, &twin.others)
                && are_of(&noted.noted, &twin.noted, &twin.others),
        )
    }

    fn is_answer(&self, _answer: &(), _alloc: Global) -> Result<bool, Refusal> {
        Ok(self.noted.noted.len() == 18)
    }
}

#[derive(Drop)]
struct Joining {
    noted: Noted,
}

impl Joining {
    fn new(alloc: Global) -> Result<Joining, Refusal> {
        Ok(Joining {
            noted: Noted::new(alloc)?,
        })
    }
}

impl Scenario for Joining {
    type Answer = Footprint;

    fn call(&mut self, alloc: Global) -> Result<Footprint, Refusal> {
        Ok(self.noted.noted.with_all(alloc, &self.noted.others)?)
    }

    fn is_like(&self, twin: &Joining, _alloc: Global) -> Result<bool, Refusal> {
        Ok(self.noted.is_same(&twin.noted))
    }

    fn is_answer(&self, answer: &Footprint, _alloc: Global) -> Result<bool, Refusal> {
        Ok(answer.len() == 18 && self.noted.noted.len() == 12)
    }
}

#[derive(Drop)]
struct Copied {
    noted: Noted,
}

impl Copied {
    fn new(alloc: Global) -> Result<Copied, Refusal> {
        Ok(Copied {
            noted: Noted::new(alloc)?,
        })
    }
}

impl Scenario for Copied {
    type Answer = Footprint;

    fn call(&mut self, alloc: Global) -> Result<Footprint, Refusal> {
        Ok(self.noted.noted.copy(alloc)?)
    }

    fn is_like(&self, twin: &Copied, _alloc: Global) -> Result<bool, Refusal> {
        Ok(self.noted.is_same(&twin.noted))
    }

    fn is_answer(&self, answer: &Footprint, _alloc: Global) -> Result<bool, Refusal> {
        Ok(are_same_objects(answer, &self.noted.noted))
    }
}

pub fn play_all(rt: &impl Print, alloc: Global) {
    match Place::new(alloc) {
        Ok(place) => {
            play_look_ups(rt, alloc, &place);
            drop(place);
        }
        Err(refusal) => drop(refusal),
    }
    play(
        rt,
        alloc,
        "agrees_on",
        Agreeing::new(alloc),
        Agreeing::new(alloc),
    );
    play(
        rt,
        alloc,
        "Footprint::note_all",
        Noting::new(alloc),
        Noting::new(alloc),
    );
    play(
        rt,
        alloc,
        "Footprint::with_all",
        Joining::new(alloc),
        Joining::new(alloc),
    );
    play(
        rt,
        alloc,
        "Footprint::copy",
        Copied::new(alloc),
        Copied::new(alloc),
    );
}

fn play_look_ups(rt: &impl Print, alloc: Global, place: &Place) {
    for (call, ask) in ASKS {
        let object = Looking::new(alloc, place, ask);
        play(rt, alloc, call, object, Looking::new(alloc, place, ask));
    }
    let (object, twin) = (NewOverlay { place }, NewOverlay { place });
    play(rt, alloc, "Overlay::new", Ok(object), Ok(twin));
}
