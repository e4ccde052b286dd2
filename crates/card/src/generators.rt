// The door that advances a generator of the bench's load where it is held (document 02, U1).
ghost use Rattle.std.specs.Prelude.{◌≡◌};
ghost use Rattle.theory.specs.BenchLoad.{stepped, next_number};
ghost use Rattle.bench_load.specs.Loads.{generator_of};

use bench_load::Generator;

// "The generator advances where it is held and returns one number."
#[unsafe(no_mangle)]
pub extern "C" fn flow_generator_next(generator: &mut Generator) -> u64
    ensures { (result ≡ next_number (generator_of generator.old))
        × (generator_of generator.new ≡ stepped (generator_of generator.old)) }
{
    generator.next_number()
}
