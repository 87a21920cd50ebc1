//! The components of SEQUENCE and SET, and the alternatives of CHOICE.

use crate::builder::{ANY_TAG, Builder, DefaultText, Draft, Key, NO_DRAFT};
use crate::spans::span_of;
use crate::tag_tables::is_any;
use asn1_definitions::{MAX_STEPS, Place, Scope, context, hash_of};
use asn1_notation::{Item, NotationError, Problem, narrow};
use asn1_schema::{Member, Node, Presence, Rows};
use asn1_schema_values::NameSpan;

/// The tags of components.
#[derive(Clone, Copy)]
struct Tagging {
    /// Whether they are automatic.
    is_automatic: bool,
    /// The number of the next automatic tag.
    next: u32,
}

/// The components of one type as they are gathered.
#[derive(Clone, Copy)]
struct Gathering {
    /// SEQUENCE, SET or CHOICE.
    kind: Item,
    tagging: Tagging,
    /// Whether one of the last components must be present.
    has_mandatory: bool,
    /// Whether the components are those of another type (X.680 25.5).
    is_included: bool,
}

/// Returns the node of a SEQUENCE, SET or CHOICE.
fn node_of(kind: Item, root: Rows, is_extensible: bool, additions: Rows) -> Node {
    match kind {
        Item::Choice => Node::Choice {
            alternatives: root,
            is_extensible,
            additions,
        },
        _ => Node::Sequence {
            root,
            is_extensible,
            additions,
        },
    }
}

impl<'m> Builder<'m> {
    /// Adds the members of a SEQUENCE, SET or CHOICE, and returns its node.
    pub(crate) fn components(
        &mut self,
        scope: Scope<'_>,
        place: Place,
    ) -> Result<Node, NotationError> {
        let kind = scope.item(place);
        let mut gathering = Gathering {
            kind,
            tagging: Tagging {
                is_automatic: scope.is_automatic(place),
                next: 0,
            },
            has_mandatory: false,
            is_included: false,
        };
        let from = self.drafts.count();
        self.gather_root(scope, place, &mut gathering, MAX_STEPS)?;
        if kind != Item::Sequence {
            let drafts = self.drafts.rows_from(from);
            drafts.sort_unstable_by_key(|draft| draft.order);
        }
        let root = self.emit(from);
        if kind == Item::Sequence {
            self.check_tags()?;
        }
        let from = self.drafts.count();
        self.gather_additions(scope, place, &mut gathering)?;
        let additions = self.emit(from);
        self.check_tags()?;
        if kind == Item::Sequence
            && !gathering.tagging.is_automatic
            && scope.find_in(place, Item::Ellipsis).is_some()
        {
            self.check_insertion(scope, place)?;
        }
        self.check_names(scope.text)?;
        Ok(node_of(kind, root, scope.is_extensible(place), additions))
    }

    /// Appends the drafts from an index on to the members, and removes them.
    fn emit(&mut self, from: usize) -> Rows {
        let start = self.members.count();
        for index in from..self.drafts.count() {
            let draft = self.drafts.get(index).unwrap_or(NO_DRAFT);
            self.members.push(draft.member);
            self.member_names.push(draft.name);
            self.member_tags.push(draft.first);
        }
        self.drafts.truncate(from);
        Rows {
            from: start,
            count: narrow(self.members.count().saturating_sub(start)),
        }
    }

    /// Gathers the components of the root, before the extension marker and after the second one.
    #[cycle(gather)]
    fn gather_root(
        &mut self,
        scope: Scope<'_>,
        place: Place,
        gathering: &mut Gathering,
        steps: usize,
    ) -> Result<(), NotationError> {
        if steps == 0 {
            return Err(scope.error(Problem::Circular, place));
        }
        let mut markers = 0usize;
        let mut inside = scope.inside(place);
        for _ in 0..scope.most() {
            let Some(index) = inside.next(scope.tape) else {
                break;
            };
            let part = Place { index, ..place };
            self.step(scope.at(part))?;
            match scope.item(part) {
                Item::Ellipsis => markers = markers.saturating_add(1),
                Item::Component if markers != 1 => self.gather(scope, part, gathering)?,
                Item::ComponentsOf if markers != 1 => {
                    self.gather_of(scope, part, gathering, steps - 1)?;
                }
                _ => {}
            }
        }
        Ok(())
    }

    /// Gathers the components that COMPONENTS OF includes: those of the root of another type (X.680
    /// 25.5). They have the automatic tags of this type, or otherwise those of their own.
    #[cycle(gather)]
    fn gather_of(
        &mut self,
        scope: Scope<'_>,
        place: Place,
        gathering: &mut Gathering,
        steps: usize,
    ) -> Result<(), NotationError> {
        let of = scope.type_in(place);
        let base = scope.base(of)?;
        if scope.item(base) != gathering.kind {
            let wanted = match gathering.kind {
                Item::Set => "a SET",
                _ => "a SEQUENCE",
            };
            return Err(scope.error(Problem::NotA(wanted), of));
        }
        let was_included = gathering.is_included;
        gathering.is_included = true;
        let tagging = gathering.tagging;
        if !tagging.is_automatic {
            gathering.tagging = Tagging {
                is_automatic: scope.is_automatic(base),
                next: 0,
            };
        }
        self.gather_root(scope, base, gathering, steps)?;
        if !tagging.is_automatic {
            gathering.tagging = tagging;
        }
        gathering.is_included = was_included;
        Ok(())
    }

    /// Gathers the additions, each addition group as one (X.691 19.9).
    fn gather_additions(
        &mut self,
        scope: Scope<'_>,
        place: Place,
        gathering: &mut Gathering,
    ) -> Result<(), NotationError> {
        let mut markers = 0usize;
        let mut inside = scope.inside(place);
        for _ in 0..scope.most() {
            let Some(index) = inside.next(scope.tape) else {
                break;
            };
            let part = Place { index, ..place };
            match scope.item(part) {
                Item::Ellipsis => markers = markers.saturating_add(1),
                Item::Component if markers == 1 => self.gather(scope, part, gathering)?,
                Item::ComponentsOf if markers == 1 => {
                    self.gather_of(scope, part, gathering, MAX_STEPS)?;
                }
                Item::Group => self.gather_group(scope, part, gathering)?,
                _ => {}
            }
        }
        Ok(())
    }

    /// Gathers an addition group: a SEQUENCE of its components, or alternatives of a CHOICE.
    fn gather_group(
        &mut self,
        scope: Scope<'_>,
        place: Place,
        gathering: &mut Gathering,
    ) -> Result<(), NotationError> {
        let from = self.drafts.count();
        let first = self.first_rows.count();
        gathering.has_mandatory = false;
        self.gather_root(scope, place, gathering, MAX_STEPS)?;
        if gathering.kind == Item::Choice {
            return Ok(());
        }
        let root = self.emit(from);
        let node = self.push_node(Node::Sequence {
            root,
            is_extensible: false,
            additions: Rows { from: 0, count: 0 },
        });
        let presence = if gathering.has_mandatory {
            Presence::Mandatory
        } else {
            Presence::Optional
        };
        let first = self.first_tags_of_group(root, first);
        self.drafts.push(Draft {
            member: Member { node, presence },
            first,
            ..NO_DRAFT
        });
        Ok(())
    }

    /// Gathers a component or an alternative.
    fn gather(
        &mut self,
        scope: Scope<'_>,
        place: Place,
        gathering: &mut Gathering,
    ) -> Result<(), NotationError> {
        let of = scope.type_in(place);
        let automatic = if gathering.tagging.is_automatic {
            Some(gathering.tagging.next)
        } else {
            None
        };
        let node = self.used_node(scope, of, automatic, gathering.is_included)?;
        let name = span_of(scope, place);
        self.names.push(Key {
            key: hash_of(scope.text_of(scope.entry(place.index))),
            is_root: true,
            span: name,
        });
        let presence = self.presence(scope, place, node);
        if let Presence::Mandatory = presence {
            gathering.has_mandatory = true;
        }
        let from = self.tags.count();
        if gathering.tagging.is_automatic {
            self.add_key(context(gathering.tagging.next).order(), true, name);
            gathering.tagging.next = gathering.tagging.next.saturating_add(1);
        } else {
            self.add_first_tags(scope, of, name, true, MAX_STEPS)?;
        }
        let order = self.least_tag(from);
        let first = self.push_first_tags(from);
        self.drafts.push(Draft {
            member: Member { node, presence },
            name,
            order,
            first,
        });
        // Only consecutive components that may be absent, and the one after them, must have distinct
        // tags in a SEQUENCE (X.680 25.6).
        if gathering.kind == Item::Sequence
            && let Presence::Mandatory = presence
        {
            self.check_tags()?;
        }
        Ok(())
    }

    /// Returns an error if the additions of a SEQUENCE, of which each may be absent, have a tag of the
    /// components that may be absent before them, or of those after them up to one that must be present
    /// (X.680 25.6).
    fn check_insertion(&mut self, scope: Scope<'_>, place: Place) -> Result<(), NotationError> {
        let mut is_addition = false;
        let mut inside = scope.inside(place);
        for _ in 0..scope.most() {
            let Some(index) = inside.next_in_groups(scope.tape) else {
                break;
            };
            let part = Place { index, ..place };
            match scope.item(part) {
                Item::Ellipsis => is_addition = !is_addition,
                Item::Component => {
                    let of = scope.type_in(part);
                    self.add_first_tags(scope, of, span_of(scope, part), true, MAX_STEPS)?;
                    let may_be_absent = is_addition
                        || scope.find_in(part, Item::Optional).is_some()
                        || scope.find_in(part, Item::Default).is_some();
                    if !may_be_absent {
                        self.check_tags()?;
                    }
                }
                _ => {}
            }
        }
        self.check_tags()
    }

    /// Returns whether a component may be absent.
    fn presence(&mut self, scope: Scope<'_>, place: Place, node: usize) -> Presence {
        if scope.find_in(place, Item::Optional).is_some() {
            return Presence::Optional;
        }
        match scope.find_in(place, Item::Default) {
            Some(default) => {
                let value = span_of(scope, default);
                let value = self.defaults.push(DefaultText {
                    value,
                    node,
                    at: default,
                    of: scope.type_in(place),
                });
                Presence::Default { value }
            }
            None => Presence::Mandatory,
        }
    }

    /// Adds the tags that the encoding of a type can begin with, of the component with this name. An
    /// untagged CHOICE has those of its alternatives.
    #[cycle(first)]
    fn add_first_tags(
        &mut self,
        scope: Scope<'_>,
        place: Place,
        name: NameSpan,
        is_root: bool,
        steps: usize,
    ) -> Result<(), NotationError> {
        if steps == 0 {
            return Err(scope.error(Problem::Circular, place));
        }
        let of = scope.named_type(place)?;
        if scope.item(of) != Item::Choice {
            if is_any(scope, of) {
                self.add_key(ANY_TAG, is_root, name);
            } else if let Some(tag) = scope.tag_of(of)? {
                self.add_key(tag.order(), is_root, name);
            }
            return Ok(());
        }
        self.add_alternative_tags(scope, of, name, is_root, steps - 1)
    }

    /// Adds the tags that the encoding of a CHOICE can begin with.
    #[cycle(first)]
    fn add_alternative_tags(
        &mut self,
        scope: Scope<'_>,
        place: Place,
        name: NameSpan,
        is_root: bool,
        steps: usize,
    ) -> Result<(), NotationError> {
        let is_automatic = scope.is_automatic(place);
        let mut number = 0u32;
        let mut is_root = is_root;
        let mut inside = scope.inside(place);
        for _ in 0..scope.most() {
            let Some(index) = inside.next_in_groups(scope.tape) else {
                break;
            };
            let part = Place { index, ..place };
            self.step(scope.at(part))?;
            match scope.item(part) {
                Item::Ellipsis => is_root = false,
                Item::Component if is_automatic => {
                    self.add_key(context(number).order(), is_root, name);
                    number = number.saturating_add(1);
                }
                Item::Component => {
                    let inner = scope.type_in(part);
                    self.add_first_tags(scope, inner, name, is_root, steps)?;
                }
                _ => {}
            }
        }
        Ok(())
    }
}
