//! The label of a node: its kind, name and ids.
ghost use Rattle.std.specs.Prelude.{◌≡◌, [], IfOk, string_bytes};
ghost use Rattle.dom_model.specs.Forests.Kinds.{node_name};
ghost use Rattle.dom_model.specs.Worlds.Making.{named};
ghost use Rattle.dom_model.specs.Commands.AnswerMaking.{doctype_label};

use crate::label_texts::LabelTexts;
use arrayvec::ArrayString;
use dom_model::Kind;
use std::alloc::{AllocError, Global};
use std::marker::Model;

/// A node's kind, name and ids: all of a node except its data, attributes and children. It takes 32 bytes.
///
/// The name is that of an Element or a DocumentType, or the target of a ProcessingInstruction. Only a DocumentType has ids. A text that the kind does
/// not have is empty.
#[derive(Debug, Drop)]
pub struct Label {
    pub kind: Kind,
    texts: LabelTexts,
}

impl Model for Label {
    ghost use Rattle.dom_model.specs.Forests.Kinds.{Label as PlainLabel};
    ghost use Rattle.dom_kinds.specs.LabelTexts.{name_in, public_in, system_in};

    ghost Value = { PlainLabel };

    ghost view = { λ l. record { kind = l.kind; name = name_in l.texts; public_id = public_in l.texts; system_id = system_in l.texts } };
}

impl Label {
    /// Returns a label without ids. It takes memory only if the name has more than 8 bytes.
    pub fn named(alloc: Global, kind: Kind, name: &str) -> Result<Label, AllocError>
        ensures { IfOk result (λ made. made ≡ named kind name.now) }
    {
        let texts = LabelTexts::named(alloc, name)?;
        Ok(Label { kind, texts })
    }

    /// Returns the label of a kind without names. It takes no memory.
    pub fn nameless(kind: Kind) -> Label
        ensures { result ≡ named kind [] }
    {
        Label {
            kind,
            texts: LabelTexts::Short(ArrayString::new()),
        }
    }

    /// Returns the label of a DocumentType. It takes memory if an id is not empty, or if the name has more than 8 bytes.
    pub fn doctype(
        alloc: Global,
        name: String,
        public_id: String,
        system_id: String,
    ) -> Result<Label, AllocError>
        ensures { IfOk result (λ made. made ≡ doctype_label (string_bytes name)
            (string_bytes public_id) (string_bytes system_id)) }
    {
        if public_id.is_empty() && system_id.is_empty() {
            return Label::named(alloc, Kind::DocumentType, name.as_str());
        }
        let texts = Box::new(alloc, (name, public_id, system_id))?;
        Ok(Label {
            kind: Kind::DocumentType,
            texts: LabelTexts::Doctype(texts),
        })
    }

    /// Returns the name of an Element or a DocumentType, or the target of a ProcessingInstruction.
    pub fn name(&self) -> &str
        ensures { result.now ≡ self.now.name }
    {
        self.texts.name()
    }

    /// Returns the public id of a DocumentType.
    pub fn public_id(&self) -> &str
        ensures { result.now ≡ self.now.public_id }
    {
        self.texts.public_id()
    }

    /// Returns the system id of a DocumentType.
    pub fn system_id(&self) -> &str
        ensures { result.now ≡ self.now.system_id }
    {
        self.texts.system_id()
    }

    /// Returns a copy in memory of its own.
    pub fn try_clone(&self, alloc: Global) -> Result<Label, AllocError>
        ensures { IfOk result (λ copy. copy ≡ self.now) }
    {
        let texts = self.texts.try_clone(alloc)?;
        Ok(Label {
            kind: self.kind,
            texts,
        })
    }

    /// Returns the `nodeName` (DOM Standard, "Interface Node").
    pub fn node_name(&self) -> &str
        ensures { result.now ≡ node_name self.now }
    {
        match self.kind {
            Kind::Element | Kind::ProcessingInstruction | Kind::DocumentType => self.texts.name(),
            Kind::Text => "#text",
            Kind::Comment => "#comment",
            Kind::Document => "#document",
            Kind::DocumentFragment => "#document-fragment",
        }
    }
}
