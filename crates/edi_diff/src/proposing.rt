//! Which records plainly became others: those that share a key with one record of the other sheet, and with no other
//! record.

ghost use Rattle.std.specs.Prelude.{◌≡◌, ◌↔◌, ◌<◌, ◌^◌, ◌++◌, IfOk, IsSorted, IsTrue, OnOk, map, option_map};
ghost use Rattle.edi_plan.specs.Plans.{IsPlace};
ghost use Rattle.edi_diff.specs.inner.Codes.{code_at, is_of_second, place_by, proposal_by};
ghost use Rattle.edi_diff.specs.inner.Joints.{AreJoints, joint_cmp, joint_of, joined_with, joints_of};
ghost use Rattle.edi_diff.specs.inner.Keys.{all_known, contents_key, named_ends_key, joined_key, points_key};
ghost use Rattle.edi_diff.specs.inner.LonePairs.{AreByContents, AreByEnds, AreByJoints, AreByPoints, AreLoneNeighbours, AreLonePairs, HasKeyAt, IsLoneIfAny, with_code};
ghost use Rattle.edi_diff.specs.inner.Progress.{arc_of_ends, link_class_at, first_of_pair, known_name, open_codes, open_seconds, plan_of, progress_of, reversal_of};

use crate::changes::{Changes, Proposal};
use edi_line::{BorrowedList, ListOfBorrowed, Sequence};
use edi_plan::{Plan, PlanAttribute, PlanEnd, sorted_attributes};
use edi_record::{Extra, Kind};
use edi_schema::{ClassRef, Role};
use edi_topo::ForwardPoints;
use std::alloc::{AllocError, Global};

/// A record of one of two sheets: twice its place, and one more if it is of the second.
type Code = u64;

/// A record that a link joins with another one, and by which class of link it is joined with what. That other record is
/// named by its place in the second sheet, whichever of the two it is of.
type Joined = (Code, (LinkClass, u32));

/// The class of a link, or its kind, which one class has at most.
#[derive(Clone, Copy, PartialEq, Eq, PartialOrd, Ord)]
enum LinkClass {
    Plain(ClassRef),
    OfKind(Role),
}

/// Two plans, and what became of the records of the first so far.
#[derive(Drop)]
pub(crate) struct Open<'a> {
    pub(crate) plan: &'a Plan,
    pub(crate) other: &'a Plan,
    pub(crate) changes: &'a Changes,
}

impl<'a> Open<'a> {
    /// Nodes and arcs with the same points.
    pub(crate) fn by_points(&self, alloc: Global) -> Result<Vec<Proposal>, AllocError>
        ensures { IfOk result (λ found. AreByPoints (progress_of self.now) found.items) }
    {
        let codes = self.codes(alloc)?;
        let mut pairs = Vec::new(alloc);
        for code in &codes {
            let key = points_key(self.side(*code), place_of(*code));
            push_keyed(&mut pairs, key, *code)?;
        }
        lone_pairs(alloc, &mut pairs)
    }

    /// Records of one class with the same attributes and extra zones.
    pub(crate) fn by_contents(&self, alloc: Global) -> Result<Vec<Proposal>, AllocError>
        ensures { IfOk result (λ found. AreByContents (progress_of self.now) found.items) }
    {
        let codes = self.codes(alloc)?;
        let mut pairs = Vec::new(alloc);
        for code in &codes {
            let key = contents_key(alloc, self.side(*code), place_of(*code))?;
            push_keyed(&mut pairs, key, *code)?;
        }
        lone_pairs(alloc, &mut pairs)
    }

    /// Records that links join with the same.
    pub(crate) fn by_joints(&self, alloc: Global) -> Result<Vec<Proposal>, AllocError>
        ensures { IfOk result (λ found. AreByJoints (progress_of self.now) found.items) }
    {
        let joined = self.joints(alloc)?;
        let codes = self.codes(alloc)?;
        let mut pairs = Vec::new(alloc);
        for code in &codes {
            let key = self.joined_key(alloc, &joined, *code)?;
            push_keyed(&mut pairs, key, *code)?;
        }
        lone_pairs(alloc, &mut pairs)
    }

    /// Links of one class with the same ends.
    pub(crate) fn by_ends(&self, alloc: Global) -> Result<Vec<Proposal>, AllocError>
        ensures { IfOk result (λ found. AreByEnds (progress_of self.now) found.items) }
    {
        let codes = self.codes(alloc)?;
        let mut pairs = Vec::new(alloc);
        for code in &codes {
            let key = self.ends_key(alloc, *code)?;
            push_keyed(&mut pairs, key, *code)?;
        }
        lone_pairs(alloc, &mut pairs)
    }

    /// The records that are still open.
    fn codes(&self, alloc: Global) -> Result<Vec<Code>, AllocError>
        ensures { IfOk result (λ codes. codes.items ≡ open_codes (progress_of self.now)) }
    {
        let mut codes = Vec::new(alloc);
        for (place, went) in self.changes.to.as_slice().iter().enumerate() {
            if went.is_none() {
                codes.push(code_of(place, false))?;
            }
        }
        self.push_seconds(&mut codes)?;
        Ok(codes)
    }

    /// Adds the records of the second sheet that are still open.
    fn push_seconds(&self, codes: &mut Vec<Code>) -> Result<(), AllocError>
        ensures { OnOk result (codes.new.items ≡ codes.old.items ++ open_seconds (progress_of self.now)) }
    {
        for (place, reached) in self.changes.reached.as_slice().iter().enumerate() {
            if !*reached {
                codes.push(code_of(place, true))?;
            }
        }
        Ok(())
    }

    /// The plan of a record.
    fn side(&self, code: Code) -> &'a Plan
        ensures { result.now ≡ plan_of (progress_of self.now) (is_of_second code) }
    {
        self.sheet(is_second(code))
    }

    /// The plan of one of the sheets.
    fn sheet(&self, of_second: bool) -> &'a Plan
        ensures { result.now ≡ plan_of (progress_of self.now) of_second }
    {
        if of_second { self.other } else { self.plan }
    }

    /// What a record of a side is named by: its place in the second sheet, if it is known.
    fn name(&self, of_second: bool, place: u32) -> Option<u32>
        ensures { result ≡ known_name (progress_of self.now) of_second place }
    {
        if !of_second {
            return match self.changes.to.as_slice().get(place as usize) {
                Some(went) => *went,
                None => None,
            };
        }
        match self.changes.reached.as_slice().get(place as usize) {
            Some(true) => Some(place),
            Some(false) | None => None,
        }
    }

    /// The class of a link as the second sheet has it, where its arc may be reversed.
    fn class(&self, of_second: bool, place: u32) -> LinkClass
        ensures { IsPlace (plan_of (progress_of self.now) of_second) place
            → result ≡ link_class_at (progress_of self.now) of_second place }
    {
        let plan = self.sheet(of_second);
        if place >= plan.len() {
            return LinkClass::OfKind(Role::Plain);
        }
        match plan.role(place) {
            Role::Plain => LinkClass::Plain(plan.scp(place)),
            role => match self.is_reversed(of_second, plan, place) {
                Some(true) => LinkClass::OfKind(role.opposite()),
                Some(false) => LinkClass::OfKind(role),
                None => LinkClass::OfKind(one_of_pair(role)),
            },
        }
    }

    /// Whether the arc of a link is reversed in the second sheet, if it is known there.
    fn is_reversed(&self, of_second: bool, plan: &Plan, place: u32) -> Option<bool>
        requires { IsPlace plan.now place }
        ensures { result ≡ reversal_of (progress_of self.now) of_second plan.now place }
    {
        let arc = arc_among(plan, plan.ends(place))?;
        self.name(of_second, arc)?;
        if of_second {
            return Some(false);
        }
        self.changes.turned.as_slice().get(arc as usize).copied()
    }

    /// What links join open records with, in the order of these records.
    fn joints(&self, alloc: Global) -> Result<Vec<Joined>, AllocError>
        ensures { IfOk result (λ joined. AreJoints (progress_of self.now) joined.items) }
    {
        let mut joined = Vec::new(alloc);
        for place in self.plan.places(Kind::Lnk) {
            self.join_ends(&mut joined, code_of(*place as usize, false))?;
        }
        for place in self.other.places(Kind::Lnk) {
            self.join_ends(&mut joined, code_of(*place as usize, true))?;
        }
        joined.sort_unstable();
        Ok(joined)
    }

    /// Adds what a link joins.
    fn join_ends(&self, joined: &mut Vec<Joined>, code: Code) -> Result<(), AllocError>
        ensures { OnOk result (joined.new.items ≡ joined.old.items ++ joints_of (progress_of self.now) code) }
    {
        let plan = self.side(code);
        let place = place_of(code);
        if place >= plan.len() {
            return Ok(());
        }
        if let Some((origin, others)) = plan.ends(place).split_first() {
            for end in others {
                self.join(joined, code, origin.target, end.target)?;
                self.join(joined, code, end.target, origin.target)?;
            }
        }
        Ok(())
    }

    /// Adds that a link joins a record with another one, if the first has no name yet and the second has one.
    fn join(
        &self,
        joined: &mut Vec<Joined>,
        link: Code,
        place: u32,
        with: u32,
    ) -> Result<(), AllocError>
        ensures { IsPlace (plan_of (progress_of self.now) (is_of_second link)) (place_by link)
            → OnOk result (joined.new.items ≡ joined.old.items ++ joint_of (progress_of self.now) link place with) }
    {
        let of_second = is_second(link);
        match (self.name(of_second, place), self.name(of_second, with)) {
            (None, Some(name)) => {
                let class = self.class(of_second, place_of(link));
                joined.push((code_of(place as usize, of_second), (class, name)))?;
            }
            (None, None) | (Some(_), _) => {}
        }
        Ok(())
    }

    /// The type of a record, and what links join it with; none for a link, and where they join it with nothing.
    fn joined_key(
        &self,
        alloc: Global,
        joined: &[Joined],
        code: Code,
    ) -> Result<Option<(Kind, Sequence<(LinkClass, u32)>)>, AllocError>
        ensures { IsSorted joint_cmp joined.now
            → IfOk result (λ key. key ≡ joined_key (progress_of self.now) joined.now code) }
    {
        let plan = self.side(code);
        let place = place_of(code);
        if place >= plan.len() || plan.kind(place) == Kind::Lnk {
            return Ok(None);
        }
        let names = names_of(alloc, joined, code)?;
        if names.is_empty() {
            return Ok(None);
        }
        Ok(Some((plan.kind(place), Sequence::from_vec(names))))
    }

    /// The class of a link and the names of its ends; none where an end has no name, and for any other record.
    fn ends_key(
        &self,
        alloc: Global,
        code: Code,
    ) -> Result<Option<(LinkClass, Sequence<u32>)>, AllocError>
        ensures { IfOk result (λ key. key ≡ named_ends_key (progress_of self.now) code) }
    {
        let plan = self.side(code);
        let place = place_of(code);
        if place >= plan.len() || plan.kind(place) != Kind::Lnk {
            return Ok(None);
        }
        match self.end_names(alloc, is_second(code), plan.ends(place))? {
            Some(names) => {
                let class = self.class(is_second(code), place);
                Ok(Some((class, Sequence::from_vec(names))))
            }
            None => Ok(None),
        }
    }

    /// The names of the ends of a link, if all have one.
    fn end_names(
        &self,
        alloc: Global,
        of_second: bool,
        ends: &[PlanEnd],
    ) -> Result<Option<Vec<u32>>, AllocError>
        ensures { IfOk result (λ names. option_map (λ known. known.items) names
            ≡ all_known (map (λ end. known_name (progress_of self.now) of_second end.target) ends.now)) }
    {
        let mut names = Vec::new(alloc);
        for end in ends {
            match self.name(of_second, end.target) {
                Some(name) => names.push(name)?,
                None => return Ok(None),
            }
        }
        Ok(Some(names))
    }
}

/// Of two kinds that a reversal exchanges the first: where it isn't known which way the arc runs, they are one.
fn one_of_pair(role: Role) -> Role
    ensures { result ≡ first_of_pair role }
{
    match role {
        Role::Initial | Role::Final => Role::Initial,
        Role::Left | Role::Right => Role::Left,
        Role::Plain => Role::Plain,
    }
}

/// The first arc among these ends.
fn arc_among(plan: &Plan, ends: &[PlanEnd]) -> Option<u32>
    ensures { result ≡ arc_of_ends plan.now ends.now }
{
    for end in ends {
        if end.target < plan.len() && plan.kind(end.target) == Kind::Par {
            return Some(end.target);
        }
    }
    None
}

/// A record of a side.
fn code_of(place: usize, of_second: bool) -> Code
    ensures code { result ≡ code_at of_second place }
    ensures sheet { place < 2 ^ 63 → is_of_second result ≡ of_second }
    ensures place { place < 2 ^ 32 → place_by result ≡ place }
{
    (place as u64)
        .saturating_mul(2)
        .saturating_add(u64::from(of_second))
}

/// Whether a record is of the second sheet.
fn is_second(code: Code) -> bool
    ensures { result ≡ is_of_second code }
{
    code % 2 == 1
}

/// The place of a record.
fn place_of(code: Code) -> u32
    ensures { result ≡ place_by code }
{
    u32::try_from(code / 2).unwrap_or(u32::MAX)
}

/// The type and the points of a node or an arc, in the lesser direction.
fn points_key(plan: &Plan, place: u32) -> Option<(Kind, ForwardPoints<'_>)>
    ensures { result ≡ points_key plan.now place }
{
    if place >= plan.len() {
        return None;
    }
    match plan.kind(place) {
        Kind::Pno | Kind::Par => Some((plan.kind(place), ForwardPoints::of(plan.points(place)))),
        Kind::Pfe | Kind::Fea | Kind::Lnk => None,
    }
}

/// The type, the class, the attributes and the extra zones of a record, but for a link.
fn contents_key(
    alloc: Global,
    plan: &Plan,
    place: u32,
) -> Result<Option<ContentsKey<'_>>, AllocError>
    ensures { IfOk result (λ key. key ≡ contents_key plan.now place) }
{
    if place >= plan.len() || plan.kind(place) == Kind::Lnk {
        return Ok(None);
    }
    let attributes = sorted_attributes(alloc, plan.attributes(place))?;
    Ok(Some((
        (plan.kind(place), plan.scp(place)),
        (
            ListOfBorrowed::from_vec(attributes),
            BorrowedList::of(plan.extras(place)),
        ),
    )))
}

type ContentsKey<'a> = (
    (Kind, ClassRef),
    (ListOfBorrowed<'a, PlanAttribute>, BorrowedList<'a, Extra>),
);

/// What links join a record with, of all that they join.
fn names_of(
    alloc: Global,
    joined: &[Joined],
    code: Code,
) -> Result<Vec<(LinkClass, u32)>, AllocError>
    ensures { IsSorted joint_cmp joined.now → IfOk result (λ names. names.items ≡ joined_with joined.now code) }
{
    let at = joined.partition_point(|(of, _)| *of < code);
    let (_, behind) = joined.split_at(at.min(joined.len()));
    let mut names = Vec::new(alloc);
    for (of, name) in behind {
        if *of != code {
            break;
        }
        names.push(*name)?;
    }
    Ok(names)
}

/// Adds a record with its key, if it has one.
fn push_keyed<K: Drop>(
    pairs: &mut Vec<(K, Code)>,
    key: Option<K>,
    code: Code,
) -> Result<(), AllocError>
    ensures { OnOk result (pairs.new.items ≡ pairs.old.items ++ with_code key code) }
{
    if let Some(key) = key {
        pairs.push((key, code))?;
    }
    Ok(())
}

/// The pairs of a record of each sheet that have one key, which no other record has.
fn lone_pairs<K: Ord>(alloc: Global, pairs: &mut [(K, Code)]) -> Result<Vec<Proposal>, AllocError>
    ensures { IfOk result (λ found. AreLonePairs K.cmp pairs.old found.items) }
{
    pairs.sort_unstable();
    lone_neighbours(alloc, pairs)
}

/// The pairs of a record and the next one that have one key, which those beside them don't have.
fn lone_neighbours<K: Ord>(alloc: Global, pairs: &[(K, Code)]) -> Result<Vec<Proposal>, AllocError>
    ensures { IfOk result (λ found. AreLoneNeighbours K.cmp pairs.now found.items) }
{
    let mut found = Vec::new(alloc);
    for at in 0..pairs.len() {
        if let Some(proposal) = lone_pair(pairs, at) {
            found.push(proposal)?;
        }
    }
    Ok(found)
}

/// The pair at this place and the next one, if it is one and their key is no other record's.
fn lone_pair<K: Ord>(pairs: &[(K, Code)], at: usize) -> Option<Proposal>
    ensures { IsLoneIfAny K.cmp pairs.now at result }
{
    let Some((key, code)) = pairs.get(at) else {
        return None;
    };
    let Some((next, other)) = pairs.get(at.saturating_add(1)) else {
        return None;
    };
    if key.cmp(next).is_ne()
        || has_key(pairs, at.checked_sub(1), key)
        || has_key(pairs, at.checked_add(2), key)
    {
        return None;
    }
    proposal_of(*code, *other)
}

/// Whether the record at a place has this key.
fn has_key<K: Ord>(pairs: &[(K, Code)], at: Option<usize>, key: &K) -> bool
    ensures { IsTrue result ↔ HasKeyAt K.cmp pairs.now at key.now }
{
    let Some(at) = at else {
        return false;
    };
    match pairs.get(at) {
        Some((other, _)) => other.cmp(key).is_eq(),
        None => false,
    }
}

/// That one record became the other, if one is of the first sheet and one of the second.
fn proposal_of(code: Code, other: Code) -> Option<Proposal>
    ensures { result ≡ proposal_by code other }
{
    match (is_second(code), is_second(other)) {
        (false, true) => Some(Proposal {
            place: place_of(code),
            target: place_of(other),
        }),
        (true, false) => Some(Proposal {
            place: place_of(other),
            target: place_of(code),
        }),
        (false, false) | (true, true) => None,
    }
}
