// The most rows of each table.

ghost use Rattle.std.specs.Prelude.{◌≡◌};
ghost use Rattle.tables.specs.Limits.{full_limits, small_limits};

#[derive(Debug, Clone, Copy, PartialEq, Eq)]
pub struct Limits {
    pub modules: u16,
    pub symbols: u16,
    pub records: u16,
    pub statements: u16,
    pub uses: u16,
    pub reads: u16,
    pub members: u16,
    pub imports: u16,
    pub exports: u16,
    pub constants: u16,
    pub carriers: u16,
    pub binds: u16,
    // names are numbers below this
    pub names: u16,
}

// The two functions differ in nothing but the numbers that each holds, so one function for both would have to take all of them.
// A constant has no contract that would refuse a wrong number.
impl Limits {
    // The limits of a whole build.
    pub fn full() -> Limits
        ensures { result ≡ full_limits }
    {
        Limits {
            modules: 256,
            symbols: 4096,
            records: 2048,
            statements: 4096,
            uses: 4096,
            reads: 4096,
            members: 4096,
            imports: 2048,
            exports: 2048,
            constants: 1024,
            carriers: 1024,
            binds: 2048,
            names: 2048,
        }
    }

    // The limits of a small book.
    pub fn small() -> Limits
        ensures { result ≡ small_limits }
    {
        Limits {
            modules: 16,
            symbols: 64,
            records: 32,
            statements: 64,
            uses: 64,
            reads: 64,
            members: 64,
            imports: 64,
            exports: 64,
            constants: 64,
            carriers: 16,
            binds: 64,
            names: 32,
        }
    }
}
