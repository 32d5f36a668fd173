// Every loader symbol in order, and the loader section judged whole.
#![tactic(auto)]

ghost use Rattle.std.specs.Prelude.{◌≡◌, length};
ghost use Rattle.refusal.specs.Order.{first_of};
ghost use Rattle.loader_header.specs.Header.{LoaderRoom};
ghost use Rattle.loader_symbol.specs.Symbol.{symbol_check, TablesInside};
ghost use Rattle.loader.specs.Loader.{loader_in};

use format::Format;
use loader_header::LoaderTables;
use module::Module;
use parts::Parts;
use refusal::Refusal;

fn check_symbols(file: &[u8], f: Format, p: Parts, t: LoaderTables) -> Result<(), Refusal>
    requires { TablesInside file.now t }
    ensures { result ≡ first_of (symbol_check file.now f p t) 0 t.nsyms }
{
    for k in 0..t.nsyms {
        loader_symbol_check::check_symbol(file, f, p, t, k)?;
    }
    Ok(())
}

// The loader section of a module: LOADER, LIMIT 2 and 3, then every loader symbol.
pub fn read_loader(file: &[u8], m: Module) -> Result<LoaderTables, Refusal>
    requires { LoaderRoom (length file.now) m.parts.loader.start.0 m.parts.loader.size }
    ensures { result ≡ loader_in file.now m }
{
    let f = m.format;
    let p = m.parts;
    let section = p.loader;
    let from = section.start;
    loader_header::check_header(file, f, from.0, section.size)?;
    let h = loader_header::read_header(file, f, from.0 as usize);
    let t = loader_header::find_tables(f, from.0, section.size, h);
    check_symbols(file, f, p, t)?;
    Ok(t)
}
