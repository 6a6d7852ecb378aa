//! How much models hold.
ghost use Rattle.std.specs.Prelude.{◌≡◌, length};
ghost use Rattle.std.specs.Option.{option_map_or};
ghost use Rattle.book_history.specs.Weights.{told, element_text, model_text, elements_in, triangles_among};

use bim_model::{Element, Model, NamedModel, Text};

// The bytes of a text, where there is one.
fn length_of(text: &Option<Text>) -> u64
    ensures { result ≡ option_map_or length text.now 0 }
{
    match text {
        Some(text) => text.as_str().len() as u64,
        None => 0,
    }
}

// The bytes of an element's texts.
fn element_text(element: &Element) -> u64
    ensures { result ≡ told (element_text element.now) }
{
    let name = element.name.as_str().len() as u64;
    let class = element.class.as_str().len() as u64;
    let storey = length_of(&element.storey);
    64_u64
        .saturating_add(name)
        .saturating_add(class)
        .saturating_add(storey)
}

/// The bytes of the texts of a model: of each element 64, and those of its name, its class and its storey's
/// name. The greatest number where they are more than 64 bits count.
pub fn model_text(model: &Model) -> u64
    ensures { result ≡ told (model_text model.now) }
{
    let mut text = 0_u64;
    for element in model.elements() {
        text = text.saturating_add(element_text(element));
    }
    text
}

/// How many elements some models have together, or the greatest number.
pub fn elements_in(models: &[NamedModel]) -> u64
    ensures { result ≡ told (elements_in models.now) }
{
    let mut count = 0_u64;
    for model in models {
        count = count.saturating_add(model.model.get().elements().len() as u64);
    }
    count
}

/// How many triangles they have together, or the greatest number.
pub fn triangles_among(models: &[NamedModel]) -> u64
    ensures { result ≡ told (triangles_among models.now) }
{
    let mut count = 0_u64;
    for model in models {
        count = count.saturating_add(model.model.get().triangle_count());
    }
    count
}
