// Coordinates with their units (units.rs).
#![tactic(auto)]

ghost use Rattle.std.specs.Prelude.{◌≡◌};
ghost use Rattle.units.specs.Physical.{units_of, physical};

// "a coordinate is an integer with its unit or a double with its unit"
#[derive(Clone, Copy, Debug, PartialEq)]
pub enum Unit {
    Integer { value: i32, units: f64 },
    Float { value: f64, units: f64 },
}

impl Unit {
    // The unit that it carries.
    pub fn units(self) -> f64
        ensures { result ≡ units_of self }
    {
        match self {
            Unit::Integer { units, .. } | Unit::Float { units, .. } => units,
        }
    }

    // Its physical value: the value, as a double, times the unit.
    pub fn absolute_value(self) -> f64
        ensures { result ≡ physical self }
    {
        match self {
            Unit::Integer { value, units } => (value as f64) * units,
            Unit::Float { value, units } => value * units,
        }
    }
}
