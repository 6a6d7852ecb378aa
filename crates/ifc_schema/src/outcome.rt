//! What a survey gives.
ghost use Rattle.std.specs.Prelude.{◌≡◌};
ghost use Rattle.ifc_schema.specs.Surveys.{used_ids, mapped_ids, element_ids};

/// The instances of a file that are used, each with the form of its row.
#[derive(Drop)]
pub struct Survey {
    used: Vec<u64>,
    mapped: Vec<u64>,
    elements: Vec<u64>,
}

impl Survey {
    /// The numbers of the instances that are used, of the mapped items among them, and of the elements.
    pub fn new(used: Vec<u64>, mapped: Vec<u64>, elements: Vec<u64>) -> Survey
        ensures used { used_ids result ≡ used.items }
        ensures mapped { mapped_ids result ≡ mapped.items }
        ensures elements { element_ids result ≡ elements.items }
    {
        Survey {
            used,
            mapped,
            elements,
        }
    }

    /// The numbers of the instances that are used, rising.
    pub fn used(&self) -> &[u64]
        ensures { result.now ≡ used_ids self.now }
    {
        self.used.as_slice()
    }

    /// The numbers of the representations that are mapped, rising.
    pub fn mapped(&self) -> &[u64]
        ensures { result.now ≡ mapped_ids self.now }
    {
        self.mapped.as_slice()
    }

    /// The numbers of the elements that have a body, rising.
    pub fn elements(&self) -> &[u64]
        ensures { result.now ≡ element_ids self.now }
    {
        self.elements.as_slice()
    }
}
