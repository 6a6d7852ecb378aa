//! Laws for callers: piercing is decided by signs, it is mutual, and what pierces is near at any distance, also at 0.
// What follows of the definitions alone.
ghost use Rattle.std.specs.Prelude.{ℕ, List, ◌↔◌, IsTrue};
ghost use Rattle.bim_model.specs.declared.geometry.Triangle.{Triangle};
ghost use Rattle.bim_model.specs.declared.element.Element.{Element};
ghost use Rattle.clearance.specs.Near.{Near, ElementsNear};
ghost use Rattle.tri_pierce.specs.Piercing.{Pierces, ListsPierce, ElementsPierce};
ghost use Rattle.tri_pierce.specs.PiercingSigns.{is_piercing_triangles, is_piercing_lists, is_piercing};

/// The truth values are true exactly where triangles, lists and elements pierce by their weights, at any coordinates.
pub fn piercing_is_decided()
    ensures triangles { (p q : Triangle) → IsTrue (is_piercing_triangles p q) ↔ Pierces p q }
    ensures lists { (ps qs : List Triangle) → IsTrue (is_piercing_lists ps qs) ↔ ListsPierce ps qs }
    ensures elements { (a b : Element) → IsTrue (is_piercing a b) ↔ ElementsPierce a b }
{}

/// Of two triangles or elements that pierce, each pierces the other.
pub fn piercing_is_mutual()
    ensures triangles { (p q : Triangle) → Pierces p q → Pierces q p }
    ensures elements { (a b : Element) → ElementsPierce a b → ElementsPierce b a }
{}

/// Triangles and elements that pierce are near at any distance, also at 0.
pub fn piercing_is_near()
    ensures triangles { (p q : Triangle) (d : ℕ) → Pierces p q → Near p q d }
    ensures elements { (a b : Element) (d : ℕ) → ElementsPierce a b → ElementsNear a b d }
{}
