//! An error of a lower layer with the step and the byte place that it does not know.

ghost use Rattle.std.specs.Prelude.{◌≡◌};
ghost use Rattle.fault.specs.Carrying.{stamped_step, stamped_string};

/// The step counts the strings read, from 1.
#[derive(Clone, Copy, Debug, PartialEq, Eq)]
pub struct AtStep<E> {
    pub step: usize,
    pub fault: E,
}

/// The step, and the byte where that string begins.
#[derive(Clone, Copy, Debug, PartialEq, Eq)]
pub struct AtString<E> {
    pub step: usize,
    pub begins: usize,
    pub fault: E,
}

pub fn at_step<T, E>(step: usize, res: Result<T, E>) -> Result<T, AtStep<E>>
    ensures { result ≡ stamped_step step res }
{
    res.map_err(|fault| AtStep { step, fault })
}

pub fn at_string<T, E>(step: usize, begins: usize, res: Result<T, E>) -> Result<T, AtString<E>>
    ensures { result ≡ stamped_string step begins res }
{
    res.map_err(|fault| AtString {
        step,
        begins,
        fault,
    })
}
