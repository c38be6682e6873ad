//! The bodies, shareds and attributes of a class, each in order.

use crate::members::result_terms;
use crate::terms::TypeTerms;
use failure::{Failure, Invariant};
use sa_ast::{Feature, FeatureBody};
use sa_graph::word;
use sqlite_items::Items;
use std::alloc::Global;

/// The sort of features that a feature is counted with in its class.
#[derive(Clone, Copy, PartialEq, Eq)]
pub(crate) enum Sort {
    /// The routines and iters with a body.
    Body,
    Shared,
    Attribute,
    Other,
}

fn sort_of(part: &FeatureBody) -> Sort {
    match part {
        FeatureBody::Routine(_) => Sort::Body,
        FeatureBody::Shared(_) => Sort::Shared,
        FeatureBody::Attr => Sort::Attribute,
        _ => Sort::Other,
    }
}

/// The features of one sort.
#[derive(Drop)]
pub(crate) struct NumberedFeatures {
    /// Their indices among the features of the class, in order.
    features: Items<u32>,
    /// By feature of the class, its index among those of the sort, if it is one of them.
    places: Items<Option<u32>>,
}

impl NumberedFeatures {
    /// Those among the features of a class that are of a sort.
    pub(crate) fn of_sort(
        alloc: Global,
        features: &[Feature],
        sort: Sort,
    ) -> Result<NumberedFeatures, Failure> {
        let mut numbered = NumberedFeatures {
            features: Items::new(alloc),
            places: Items::new(alloc),
        };
        for (place, feature) in features.iter().enumerate() {
            if sort_of(&feature.part) == sort {
                numbered.add(word(place, Invariant::ClassTable)?)?;
            } else {
                numbered.places.push(None)?;
            }
        }
        Ok(numbered)
    }

    fn add(&mut self, feature: u32) -> Result<(), Failure> {
        self.places
            .push(Some(word(self.features.len(), Invariant::ClassTable)?))?;
        self.features.push(feature)?;
        Ok(())
    }

    /// The indices of the features of the sort among the features of the class, in order.
    pub(crate) fn features(&self) -> &[u32] {
        self.features.as_slice()
    }

    /// The index of a feature of the class among those of the sort.
    pub(crate) fn place(&self, feature: u32) -> Option<u32> {
        *self.places.get(feature as usize)?
    }
}

/// The features of each sort in their class.
#[derive(Drop)]
pub(crate) struct FeatureCounts {
    pub(crate) bodies: NumberedFeatures,
    pub(crate) shareds: NumberedFeatures,
    pub(crate) attributes: NumberedFeatures,
    /// By attribute, the term of its type.
    pub(crate) attribute_terms: Items<u32>,
}

impl FeatureCounts {
    pub(crate) fn of_features(
        alloc: Global,
        features: &[Feature],
        terms: &TypeTerms<'_>,
    ) -> Result<FeatureCounts, Failure> {
        let bodies = NumberedFeatures::of_sort(alloc, features, Sort::Body)?;
        let shareds = NumberedFeatures::of_sort(alloc, features, Sort::Shared)?;
        let attributes = NumberedFeatures::of_sort(alloc, features, Sort::Attribute)?;
        let attribute_terms = result_terms(alloc, features, attributes.features(), terms)?;
        Ok(FeatureCounts {
            bodies,
            shareds,
            attributes,
            attribute_terms,
        })
    }
}
