// What stands at the places of a group's structure.
ghost use Rattle.std.specs.Prelude.{◌≡◌, true, IfOk};
ghost use Rattle.pvd_value.specs.Blank.{blank_of};
ghost use Rattle.pvd_value.specs.Fits.{fits_of};
ghost use Rattle.pvd_value.specs.View.{view};
ghost use Rattle.group_view.specs.Groups.{HasState};
ghost use Rattle.group_view.specs.Types.{source_tree};
ghost use Rattle.group_view.specs.Views.{source_shown, IsPart};

use crate::link::Linked;
use crate::piece::Piece;
use pvd_type::{BitSet, NoMemory, PvType};
use pvd_value::PvValue;
use rec_kinds::RecState;
use std::alloc::Global;
use std::marker::Model;

/// What stands at a place of a group's structure: what a member shows of its record.
#[derive(Drop)]
pub(crate) struct Source {
    /// The member's number.
    member: u32,
    piece: Piece,
    link: Linked,
    /// The type of what is shown.
    ty: PvType,
}

impl Model for Source {
    ghost use Rattle.std.specs.Prelude.{◌≡◌};
    ghost use Rattle.group_view.specs.Pieces.{piece_tree};
    ghost use Rattle.group_view.specs.Sources as sources;

    ghost Value = { sources.Source };

    ghost view = { λ s. record { member = s.member; piece = s.piece; link = s.link } };

    ghost invariant = { λ s. s.ty ≡ piece_tree s.piece s.link.config };
}

impl Source {
    /// What the member of this number shows of its record.
    pub fn of(alloc: Global, member: u32, piece: Piece, link: &Linked) -> Result<Source, NoMemory>
        ensures { IfOk result (λ s. s ≡ record { member = member; piece = piece; link = link.now }) }
    {
        let ty = piece.ty(alloc, link.config())?;
        let link = link.share()?;
        Ok(Source {
            member,
            piece,
            link,
            ty,
        })
    }

    /// The member's number.
    pub fn member(&self) -> u32
        ensures { result ≡ self.now.member }
    {
        self.member
    }

    /// The type of what is shown.
    pub fn ty(&self) -> &PvType
        ensures { result.now ≡ source_tree self.now }
    {
        &self.ty
    }

    /// What is shown, where the records have these states.
    pub fn view(&self, alloc: Global, states: &[RecState]) -> Result<PvValue, NoMemory>
        requires { HasState states.now self.now.link }
        ensures { IfOk result (λ v. view v ≡ source_shown states.now self.now) }
    {
        let state = &states[self.link.rec() as usize];
        self.piece.view(alloc, self.link.config(), state)
    }

    /// The same, where the leaves are those of the mask, whose numbers count from the first node of what is shown; what it has
    /// elsewhere isn't said. A list that isn't marked is not copied.
    pub fn part(
        &self,
        alloc: Global,
        states: &[RecState],
        mask: &BitSet,
    ) -> Result<PvValue, NoMemory>
        requires { HasState states.now self.now.link }
        ensures part { IfOk result (λ v. IsPart mask.now 0 (source_tree self.now) (view v) (source_shown states.now self.now)) }
        ensures fits { IfOk result (λ v. fits_of 16 (view v) (source_tree self.now) ≡ true) }
    {
        let state = &states[self.link.rec() as usize];
        self.piece.part(alloc, self.link.config(), state, mask)
    }
}
