//! The namespaces and how each is called.
ghost use Rattle.std.specs.Prelude.{◌≡◌};
ghost use Rattle.wt_names.specs.Namespace.{name_of, is_called, namespace_named};

/// The namespace of a title.
#[derive(Clone, Copy, Debug, PartialEq, Eq)]
pub enum Ns {
    Main,
    Talk,
    User,
    UserTalk,
    Project,
    ProjectTalk,
    File,
    FileTalk,
    Template,
    TemplateTalk,
    Help,
    HelpTalk,
    Category,
    CategoryTalk,
}

/// The namespaces that a prefix can name.
const NAMED: [Ns; 13] = [
    Ns::Talk,
    Ns::User,
    Ns::UserTalk,
    Ns::Project,
    Ns::ProjectTalk,
    Ns::File,
    Ns::FileTalk,
    Ns::Template,
    Ns::TemplateTalk,
    Ns::Help,
    Ns::HelpTalk,
    Ns::Category,
    Ns::CategoryTalk,
];

impl Ns {
    /// The canonical name; empty for the main namespace.
    #[tactic(auto, unfolding(crate::specs::Namespace::name_of))]
    pub fn name(self) -> &'static str
        ensures { result.now ≡ name_of self }
    {
        match self {
            Ns::Main => "",
            Ns::Talk => "Talk",
            Ns::User => "User",
            Ns::UserTalk => "User talk",
            Ns::Project => "Project",
            Ns::ProjectTalk => "Project talk",
            Ns::File => "File",
            Ns::FileTalk => "File talk",
            Ns::Template => "Template",
            Ns::TemplateTalk => "Template talk",
            Ns::Help => "Help",
            Ns::HelpTalk => "Help talk",
            Ns::Category => "Category",
            Ns::CategoryTalk => "Category talk",
        }
    }
}

/// Whether the text is a name of this namespace, without ASCII case.
#[tactic(auto, unfolding(crate::specs::Namespace::is_called, crate::specs::Namespace::image))]
fn is_called(ns: Ns, text: &str) -> bool
    ensures { result ≡ is_called text.now ns }
{
    match ns {
        Ns::File => text.eq_ignore_ascii_case(ns.name()) || text.eq_ignore_ascii_case("Image"),
        _ => text.eq_ignore_ascii_case(ns.name()),
    }
}

/// The namespace of this name, without ASCII case.
#[tactic(auto, unfolding(crate::specs::Namespace::namespace_named))]
pub fn namespace_named(text: &str) -> Option<Ns>
    ensures { result ≡ namespace_named text.now }
{
    NAMED.iter().copied().find(|ns| is_called(*ns, text))
}
