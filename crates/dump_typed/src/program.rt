//! The parts of a program as JSON records: types, features with their sites, signatures with their implementations, shareds.

use crate::writer::Writer;
use sa_ast::{ClassKind, Mode, Ty};
use sa_typed::{
    Site, TypeDef, TypedFeature, TypedImplementation, TypedProgram, TypedShared, TypedSignature,
};
use sqlite_items::Items;
use std::alloc::AllocError;

impl Writer {
    /// A typed program.
    pub fn program(&mut self, core: &TypedProgram) -> Result<(), AllocError> {
        self.open_record()?;
        self.key("types")?;
        self.type_infos(core.types.as_slice())?;
        self.key("features")?;
        self.features(core.features.as_slice())?;
        self.key("sigs")?;
        self.signatures(core.sigs.as_slice())?;
        self.key("shareds")?;
        self.shareds(core.shareds.as_slice())?;
        self.key("main")?;
        self.number(core.main)?;
        self.key("feeds")?;
        self.newlines(core.newlines.as_slice())?;
        self.close_record()
    }

    fn type_infos(&mut self, types: &[TypeDef]) -> Result<(), AllocError> {
        self.open_list()?;
        for info in types {
            self.type_info(info)?;
        }
        self.close_list()
    }

    fn type_info(&mut self, info: &TypeDef) -> Result<(), AllocError> {
        self.open_record()?;
        self.key("ty")?;
        self.ty(&info.ty)?;
        self.key("kind")?;
        self.kind(info.kind)?;
        self.key("slots")?;
        self.number(info.slots)?;
        self.key("attrs")?;
        self.numbers(info.attrs.as_slice())?;
        self.key("array")?;
        self.truth(info.array)?;
        self.key("elem")?;
        self.number_or_nothing(info.elem)?;
        self.key("above")?;
        self.numbers(info.above.as_slice())?;
        self.close_record()
    }

    fn kind(&mut self, kind: ClassKind) -> Result<(), AllocError> {
        self.word(match kind {
            ClassKind::Reference => "Reference",
            ClassKind::Immutable => "Immutable",
            ClassKind::Abstract => "Abstract",
            ClassKind::Partial => "Partial",
        })
    }

    fn features(&mut self, features: &[TypedFeature]) -> Result<(), AllocError> {
        self.open_list()?;
        for feature in features {
            self.feature(feature)?;
        }
        self.close_list()
    }

    fn feature(&mut self, feature: &TypedFeature) -> Result<(), AllocError> {
        self.open_record()?;
        self.key("class")?;
        self.number(feature.class)?;
        self.key("iter")?;
        self.truth(feature.iter)?;
        self.key("modes")?;
        self.modes(feature.modes.as_slice())?;
        self.key("vars")?;
        self.numbers(feature.vars.as_slice())?;
        self.key("result")?;
        self.number_or_nothing(feature.result)?;
        self.key("sites")?;
        self.sites(feature.sites.as_slice())?;
        self.key("body")?;
        self.stmts(feature.body.as_slice())?;
        self.key("pos")?;
        self.pos(feature.pos)?;
        self.close_record()
    }

    fn modes(&mut self, modes: &[Mode]) -> Result<(), AllocError> {
        self.open_list()?;
        for mode in modes {
            self.mode(*mode)?;
        }
        self.close_list()
    }

    fn sites(&mut self, sites: &[Site]) -> Result<(), AllocError> {
        self.open_list()?;
        for site in sites {
            self.site(site)?;
        }
        self.close_list()
    }

    fn site(&mut self, site: &Site) -> Result<(), AllocError> {
        self.open_record()?;
        self.key("owner")?;
        self.number(site.owner)?;
        self.key("called")?;
        self.called(site.called)?;
        self.key("pos")?;
        self.pos(site.pos)?;
        self.close_record()
    }

    fn signatures(&mut self, signatures: &[TypedSignature]) -> Result<(), AllocError> {
        self.open_list()?;
        for signature in signatures {
            self.signature(signature)?;
        }
        self.close_list()
    }

    fn signature(&mut self, signature: &TypedSignature) -> Result<(), AllocError> {
        self.open_record()?;
        self.key("ty")?;
        self.number(signature.ty)?;
        self.key("name")?;
        self.bytes(signature.sig.name.as_slice())?;
        self.key("result")?;
        self.type_or_nothing(&signature.sig.result)?;
        self.key("impls")?;
        self.implementations(signature.impls.as_slice())?;
        self.close_record()
    }

    /// A type, or `null` for none.
    fn type_or_nothing(&mut self, ty: &Option<Ty>) -> Result<(), AllocError> {
        match ty {
            Some(ty) => self.ty(ty),
            None => self.nothing(),
        }
    }

    fn implementations(
        &mut self,
        implementations: &[TypedImplementation],
    ) -> Result<(), AllocError> {
        self.open_list()?;
        for implementation in implementations {
            self.implementation(implementation)?;
        }
        self.close_list()
    }

    fn implementation(&mut self, implementation: &TypedImplementation) -> Result<(), AllocError> {
        self.open_record()?;
        self.key("ty")?;
        self.number(implementation.ty)?;
        self.key("target")?;
        self.target(implementation.target)?;
        self.close_record()
    }

    fn shareds(&mut self, shareds: &[TypedShared]) -> Result<(), AllocError> {
        self.open_list()?;
        for shared in shareds {
            self.shared(shared)?;
        }
        self.close_list()
    }

    fn shared(&mut self, shared: &TypedShared) -> Result<(), AllocError> {
        self.open_record()?;
        self.key("ty")?;
        self.number(shared.ty)?;
        self.key("class")?;
        self.number(shared.class)?;
        self.key("start")?;
        self.expr_or_nothing(&shared.start)?;
        self.close_record()
    }

    /// The positions of the line feeds in each text.
    fn newlines(&mut self, newlines: &[Items<u32>]) -> Result<(), AllocError> {
        self.open_list()?;
        for places in newlines {
            self.numbers(places.as_slice())?;
        }
        self.close_list()
    }
}
