//! The order of the elements of a model.
ghost use Rattle.std.specs.Prelude.{◌≡◌, IsPermutation};
ghost use Rattle.model_walk.specs.Checked.{Differ};
ghost use Rattle.model_build.specs.Order.{Rise};

use bim_model::Element;

/// The elements by rising identifier. Takes no memory.
pub fn in_order(mut elements: Vec<Element>) -> Vec<Element>
    ensures permutation { IsPermutation elements.items result.items }
    ensures rising { Differ elements.items → Rise result.items }
{
    elements.sort_unstable_by_key(
        |element|
            ensures { result ≡ element.now.guid.chars }
        { element.guid.chars },
    );
    elements
}
